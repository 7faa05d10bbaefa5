//! Runs of scripts by their processes: what `run`, `run --strict` and `replay` read, run and print.
#![tactic(auto)]

mod fault;
mod limit;
mod ordering;
mod replaying;
mod report;
mod request;
mod running;
mod strict;

pub use fault::ProcessFault;
pub use hart_run::{MAX_HARTS, MAX_TURNS};
pub use replaying::{MAX_SCHEDULE, run_replay};
pub use report::{Lists, Recording, Run};
pub use request::{ReplayRequest, RunRequest};
pub use running::run_processes;
pub use strict::{StrictRun, run_strict};
