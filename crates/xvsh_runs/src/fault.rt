//! Why there is no run by processes.
ghost use Rattle.std.specs.Prelude.{◌≡◌};
ghost use Rattle.xvsh_read.specs.Status.{status_code};
ghost use Rattle.xvsh_runs.specs.Status.{run_status};

use hart_run::{RunFault as HartsFault, RunOneFault};
use std::alloc::AllocError;
use std::fmt;
use xvsh_read::{Fault, Status};

/// Why `run` or `replay` fails. Each is reported as one line on standard error after `xvsh: `. Events, and a schedule's lines,
/// are counted from 1.
#[derive(Clone, Copy, Debug)]
pub enum ProcessFault<'a> {
    /// What any run of a script meets.
    Common(Fault<'a>),
    /// No harts, or more than 8.
    BadHarts,
    /// No turns, or more than 1,000,000,000.
    BadTurns,
    /// This word names no order of turns.
    BadOrder(&'a str),
    /// The turns are over before the run is finished, or nothing can run any more.
    Spent,
    /// The schedule and the script would both be read from standard input.
    SharedInput,
    /// This line of the schedule at this path is no event.
    NoEvent(&'a str, usize),
    /// This event dispatches this process, which isn't Runnable, or not on a hart that is free.
    NotRunnable(usize, usize),
    /// This event is a call of this process, which isn't running on this hart.
    NotRunning(usize, usize, u8),
    /// All these events took place, and the run isn't finished.
    Unfinished(usize),
}

impl ProcessFault<'_> {
    /// What helps whoever meets it, in a sentence; empty where nothing does.
    pub fn hint(self) -> &'static str {
        match self {
            ProcessFault::Common(fault) => fault.hint(),
            ProcessFault::Spent => {
                "the run needs more events, which `--turns N` allows; `xvsh check --turns` tells how many are enough"
            }
            _ => "",
        }
    }

    /// The status with which the program ends.
    pub fn status(self) -> Status
        ensures { status_code result ≡ run_status self.entry }
    {
        match self {
            ProcessFault::Common(fault) => fault.status(),
            ProcessFault::Spent => Status::NoRoom,
            ProcessFault::BadHarts
            | ProcessFault::BadTurns
            | ProcessFault::BadOrder(_)
            | ProcessFault::SharedInput => Status::Misused,
            ProcessFault::NoEvent(_, _)
            | ProcessFault::NotRunnable(_, _)
            | ProcessFault::NotRunning(_, _, _)
            | ProcessFault::Unfinished(_) => Status::Failed,
        }
    }
}

impl fmt::Display for ProcessFault<'_> {
    ghost use Rattle.std.specs.Prelude.{Some};
    ghost use Rattle.xvsh_runs.specs.Status.{run_words};

    ghost output = { λ fault. Some (run_words fault) };

    fn fmt<W: fmt::Write>(&self, f: &mut fmt::Formatter<W>) -> fmt::Result {
        match *self {
            ProcessFault::Common(fault) => write!(f, "{fault}"),
            ProcessFault::BadHarts => f.write_str("the harts are 1 to 8"),
            ProcessFault::BadTurns => f.write_str("the turns are 1 to 1000000000"),
            ProcessFault::BadOrder(word) => write!(
                f,
                "{word} is no order: there are low, high, eager, and starve:P with P from 0 to 63"
            ),
            ProcessFault::Spent => f.write_str("spent"),
            ProcessFault::SharedInput => {
                f.write_str("the schedule and the script are both standard input")
            }
            ProcessFault::NoEvent(path, line) => write!(f, "{path} line {line} is no event"),
            ProcessFault::NotRunnable(number, pid) => {
                write!(f, "event {number}: process {pid} is not runnable")
            }
            ProcessFault::NotRunning(number, pid, hart) => {
                write!(
                    f,
                    "event {number}: process {pid} is not running on hart {hart}"
                )
            }
            ProcessFault::Unfinished(count) => write!(f, "unfinished after {count} events"),
        }
    }
}

impl<'a> From<Fault<'a>> for ProcessFault<'a> {
    ghost use Rattle.std.specs.Prelude.{◌≡◌};
    ghost use Rattle.xvsh_runs.specs.declared.fault.ProcessFault.TheVariants.{Common};

    ghost from_gives = { λ fault given. given ≡ Common fault };

    fn from(fault: Fault<'a>) -> ProcessFault<'a> {
        ProcessFault::Common(fault)
    }
}

impl<'a> From<AllocError> for ProcessFault<'a> {
    ghost use Rattle.std.specs.Prelude.{◌≡◌};
    ghost use Rattle.xvsh_read.specs.declared.fault.Fault.TheVariants.{Memory};
    ghost use Rattle.xvsh_runs.specs.declared.fault.ProcessFault.TheVariants.{Common};

    ghost from_gives = { λ _ given. given ≡ Common Memory };

    fn from(_error: AllocError) -> ProcessFault<'a> {
        ProcessFault::Common(Fault::Memory)
    }
}

impl<'a> From<RunOneFault> for ProcessFault<'a> {
    ghost use Rattle.std.specs.Prelude.{◌≡◌};
    ghost use Rattle.xvsh_runs.specs.Status.{of_one};

    ghost from_gives = { λ fault given. given ≡ of_one fault };

    fn from(fault: RunOneFault) -> ProcessFault<'a> {
        match fault {
            RunOneFault::BadTurns => ProcessFault::BadTurns,
            RunOneFault::Spent => ProcessFault::Spent,
            RunOneFault::Memory => ProcessFault::Common(Fault::Memory),
        }
    }
}

impl<'a> From<HartsFault> for ProcessFault<'a> {
    ghost use Rattle.std.specs.Prelude.{◌≡◌};
    ghost use Rattle.xvsh_runs.specs.Status.{of_harts};

    ghost from_gives = { λ fault given. given ≡ of_harts fault };

    fn from(fault: HartsFault) -> ProcessFault<'a> {
        match fault {
            HartsFault::BadHarts => ProcessFault::BadHarts,
            HartsFault::BadTurns => ProcessFault::BadTurns,
            HartsFault::Spent => ProcessFault::Spent,
            HartsFault::Memory => ProcessFault::Common(Fault::Memory),
        }
    }
}
