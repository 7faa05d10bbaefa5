//! What a line asks for.

use crate::name::Name;

/// Until when turns are taken in the kernel's own order.
#[derive(Clone, Copy, Debug, PartialEq, Eq)]
pub enum Goal {
    /// Until something is written to the standard output.
    Out,
    /// Until the process in this slot sleeps.
    Sleep(u64),
    /// Until the process in this slot has exited.
    Exit(u64),
    /// Until the run is finished, or nobody is Runnable.
    End,
}

/// What a line asks for. Processes are named by their slots.
#[derive(Clone, Copy, Debug, PartialEq, Eq)]
pub enum Command<'a> {
    /// Nothing: an empty line.
    Nothing,
    /// A turn of this process.
    Turn(u64),
    /// Turns of this process, until it sleeps or exits.
    Go(u64),
    /// To take so many turns back, or the last one, if no number is given.
    Back(Option<u64>),
    /// Turns in the kernel's own order, until this.
    Until(Goal),
    /// All processes.
    Ps,
    /// All pipes.
    Pipes,
    /// What this process has open.
    Fds(u64),
    /// All files.
    Files,
    /// The output so far.
    Out,
    /// Why this process doesn't take turns.
    Why(u64),
    /// The outcomes to which the run can still come, tried through so many states, if a number is given.
    Answers(Option<u64>),
    /// To print these outcomes after each turn, or no more.
    Watch(bool),
    /// The schedule so far.
    Schedule,
    /// To write the schedule so far to the file at this path.
    Save(&'a [u8]),
    /// The commands.
    Help,
    /// To end.
    Quit,
}

/// Why a line asks for nothing.
#[derive(Clone, Copy, Debug, PartialEq, Eq)]
pub enum Mistake<'a> {
    /// Its first word, which is this, stands for no command and is no number.
    Unknown(&'a [u8]),
    /// Its first word, which is this, is a beginning of the words of several commands.
    Ambiguous(&'a [u8]),
    /// Behind this name stand other words than the command takes.
    Misused(Name),
    /// Behind a number stand more words.
    MoreThanNumber,
}
