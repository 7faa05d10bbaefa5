//! The names of processes.

ghost use Rattle.std.specs.Prelude.{◌≡◌, ◌<◌, ◌↔◌, IsSome, IfSome};
ghost use Rattle.proc_table.specs.declared.pid.TheConstants.{PROCS};

use std::marker::Model;

/// How many slots the table has (xv6's `NPROC`).
pub const PROCS: usize = 64;

/// The number of a slot, 0 to 63, by which the process in it is named (own: xv6 counts its processes on and on, and
/// finds a slot by a search).
#[derive(Clone, Copy, Debug, PartialEq, Eq)]
pub struct Pid {
    index: usize,
}

impl Model for Pid {
    ghost use Rattle.std.specs.Prelude.{ℕ, ◌<◌};
    ghost use Rattle.proc_table.specs.declared.pid.TheConstants.{PROCS};

    ghost Value = { ℕ };

    ghost view = { λ p. p.index };

    ghost invariant = { λ p. p.index < PROCS };

    ghost inverse = { λ n. record { index = n } };
}

impl Pid {
    /// The slot of this number, counted from 0; `None` for a number past 63 (own).
    pub fn new(index: usize) -> Option<Self>
        ensures within { IsSome result ↔ (index < PROCS) }
        ensures value { IfSome result (λ pid. pid ≡ index) }
    {
        if index < PROCS {
            Some(Pid { index })
        } else {
            None
        }
    }

    // The slot of this number.
    pub(crate) fn at(index: usize) -> Self
        requires { index < PROCS }
        ensures { result ≡ index }
    {
        Pid { index }
    }

    // The slot of this number, if there is one.
    pub(crate) fn named(index: Option<usize>) -> Option<Self>
        requires { IfSome index (λ i. i < PROCS) }
        ensures { result ≡ index }
    {
        match index {
            Some(index) => Some(Pid::at(index)),
            None => None,
        }
    }

    /// The slot of init, 0 (own).
    pub fn init() -> Self
        ensures { result ≡ 0 }
    {
        Pid { index: 0 }
    }

    /// The slot of the top shell, 1 (own).
    pub fn shell() -> Self
        ensures { result ≡ 1 }
    {
        Pid { index: 1 }
    }

    /// The number, from 0 (own).
    pub fn index(self) -> usize
        ensures value { result ≡ self }
        ensures within { result < PROCS }
    {
        self.index
    }
}
