//! Why a session doesn't begin, or ends early.

use std::alloc::AllocError;
use step_answers::PlayFault;
use thiserror::Error;
use xvsh_read::{Fault, Status, Unwritten};

/// Why a session doesn't begin, or ends before its input does.
#[derive(Clone, Copy, Debug, Error)]
pub enum StepFault<'a> {
    /// What it begins with can't be read, or memory is refused.
    #[error("{0}")]
    Common(Fault<'a>),
    /// The script is `-`: its lines and the commands would be one input.
    #[error("the script can't be standard input, from which the commands come")]
    OwnScript,
    /// This line of the schedule at the path, counted from 1, is no event.
    #[error("{0}: line {1} is no event")]
    NoEvent(&'a str, usize),
    /// The event of this number, counted from 1, of the schedule at the path can't take place.
    #[error("{0}: event {1} can't take place")]
    Stopped(&'a str, usize),
    /// Standard input can't be read.
    #[error("cannot read the commands")]
    Unreadable,
    /// Standard output takes no more.
    #[error("cannot write the answers")]
    Unwritten,
}

impl StepFault<'_> {
    /// The status with which the program ends.
    pub fn status(self) -> Status {
        match self {
            StepFault::Common(fault) => fault.status(),
            StepFault::OwnScript => Status::Misused,
            StepFault::NoEvent(_, _)
            | StepFault::Stopped(_, _)
            | StepFault::Unreadable
            | StepFault::Unwritten => Status::Failed,
        }
    }
}

impl<'a> From<Fault<'a>> for StepFault<'a> {
    fn from(fault: Fault<'a>) -> StepFault<'a> {
        StepFault::Common(fault)
    }
}

impl<'a> From<AllocError> for StepFault<'a> {
    fn from(_error: AllocError) -> StepFault<'a> {
        StepFault::Common(Fault::Memory)
    }
}

impl<'a> From<PlayFault> for StepFault<'a> {
    fn from(_fault: PlayFault) -> StepFault<'a> {
        StepFault::Common(Fault::Memory)
    }
}

impl<'a> From<Unwritten> for StepFault<'a> {
    fn from(_unwritten: Unwritten) -> StepFault<'a> {
        StepFault::Unwritten
    }
}
