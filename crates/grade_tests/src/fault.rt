//! Why nothing is graded.

ghost use Rattle.std.specs.Prelude.{◌≡◌};
ghost use Rattle.xvsh_read.specs.Status.{status_code};
ghost use Rattle.grade_tests.specs.Status.{grade_status};

use std::alloc::{AllocError, AllocFailed};
use thiserror::Error;
use xvsh_read::{Fault, Status};

/// Why nothing is graded.
#[derive(Debug, Drop, Error)]
pub enum GradeFault<'a> {
    /// The suite or a script can't be read, or memory is refused.
    #[error("{0}")]
    Common(Fault<'a>),
    /// This line of the suite at the path, counted from 1, is wrong, and what is wrong with it.
    #[error("{0}: line {1}: {2}")]
    Suite(&'a str, usize, String),
    /// A script, or the suite and a script, are at this one path.
    #[error("{0} is given twice")]
    Twice(&'a str),
    /// Scripts are given, and each test of the suite at this path has its own.
    #[error("the tests of {0} have scripts of their own: no other is graded")]
    Unused(&'a str),
}

impl GradeFault<'_> {
    /// The status with which the program ends: 2 where the suite is wrong, or the scripts don't fit it.
    pub fn status(&self) -> Status
        ensures { status_code result ≡ grade_status self.now }
    {
        match self {
            GradeFault::Common(fault) => fault.status(),
            GradeFault::Suite(_, _, _) | GradeFault::Twice(_) | GradeFault::Unused(_) =>
                Status::Misused,
        }
    }
}

impl<'a> From<Fault<'a>> for GradeFault<'a> {
    fn from(fault: Fault<'a>) -> GradeFault<'a> {
        GradeFault::Common(fault)
    }
}

impl<'a> From<AllocError> for GradeFault<'a> {
    fn from(_error: AllocError) -> GradeFault<'a> {
        GradeFault::Common(Fault::Memory)
    }
}

impl<'a, T: Drop> From<AllocFailed<T>> for GradeFault<'a> {
    fn from(_error: AllocFailed<T>) -> GradeFault<'a> {
        GradeFault::Common(Fault::Memory)
    }
}
