//! Runs of a script's kernel on one hart, and by a schedule.
#![tactic(auto)]

pub mod laws;
mod ordering;
mod replaying;
mod room;
mod run;

pub use ordering::Order;
pub use replaying::{ReplayFault, replay};
pub use room::full_in_run;
pub use run::{RunOneFault, run_in_order, run_one};
