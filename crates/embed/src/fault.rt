//! Why a task isn't run, and why a call gives no answer.

use thiserror::Error;

/// Why nothing of a task is run. Lines of the script and files of the task are counted from 1.
#[derive(Clone, Copy, Debug, PartialEq, Eq, Error)]
pub enum StartFault {
    /// The script has more than 1,048,576 bytes.
    #[error("the script is too long")]
    ScriptTooLong,
    /// The standard input has more than 1,048,576 bytes.
    #[error("the input is too long")]
    InputTooLong,
    /// This line of the script has more than 511 bytes.
    #[error("line {0} is too long")]
    LineTooLong(usize),
    /// This line of the script holds a byte 0.
    #[error("line {0} holds a zero byte")]
    ByteZero(usize),
    /// The name of this file has no bytes, more than 14, or one that is `/` or 0.
    #[error("file {0} has a bad name")]
    BadName(usize),
    /// A file before this one has its name.
    #[error("file {0} has the name of a file before it")]
    TakenName(usize),
    /// This file has more than 274,432 bytes.
    #[error("file {0} is too long")]
    FileTooLong(usize),
    /// There are 200 files before this one.
    #[error("file {0} is one too many")]
    TooManyFiles(usize),
    /// Memory was refused.
    #[error("no memory")]
    Memory,
}

impl From<script_load::LoadFault> for StartFault {
    ghost use Rattle.std.specs.Prelude.{◌≡◌};
    ghost use Rattle.embed.specs.Starting.{of_load};

    ghost from_gives = { λ fault given. given ≡ of_load fault };

    fn from(fault: script_load::LoadFault) -> StartFault {
        match fault {
            script_load::LoadFault::LineTooLong(line) => StartFault::LineTooLong(line),
            script_load::LoadFault::ByteZero(line) => StartFault::ByteZero(line),
            script_load::LoadFault::Memory => StartFault::Memory,
        }
    }
}

/// Why a call gives no answer. Lines and events of a schedule are counted from 1.
#[derive(Clone, Copy, Debug, PartialEq, Eq, Error)]
pub enum EmbedFault {
    /// The run can't begin.
    #[error("{0}")]
    Start(StartFault),
    /// The script would make a file of more than 274,432 bytes, or more than 200 files, or too much output.
    #[error("too large")]
    TooLarge,
    /// Memory was refused, or the task's budget is spent.
    #[error("no memory")]
    Memory,
    /// There are no turns, or more than 1,000,000,000.
    #[error("the number of turns is out of range")]
    BadTurns,
    /// The run isn't finished, and fewer than two turns are left or nothing is Runnable.
    #[error("the turns are spent")]
    Spent,
    /// This line of the schedule is no event.
    #[error("line {0} is no event")]
    NoEvent(usize),
    /// This event of the schedule dispatches what can't be dispatched.
    #[error("event {0} dispatches what can't be dispatched")]
    NotRunnable(usize),
    /// This event of the schedule is a call of a process that isn't running there.
    #[error("event {0} is a call of a process that isn't running there")]
    NotRunning(usize),
    /// All events took place, and the run isn't finished.
    #[error("the run isn't finished")]
    Unfinished,
    /// There is no order of this number.
    #[error("there is no such order")]
    BadOrder,
    /// The number of states is 0, or more than 10,000,000.
    #[error("the number of states is out of range")]
    BadStates,
}
