//! Runs of scripts by their meaning: what `plain` reads, runs and finds, and what is printed of it.
#![tactic(auto)]

mod printing;
mod reasoned;
mod request;
mod running;
mod verdict;

pub use every_order::Diagnostics;
pub use printing::{PrintedRun, printed};
pub use reasoned::{of_plain, reason_script};
pub use request::PlainRequest;
pub use running::{PlainRun, run_plain};
pub use verdict::{Verdict, verdict_of};
