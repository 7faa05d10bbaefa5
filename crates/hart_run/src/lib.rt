//! Runs of a script on one hart or on several threads, with the one answer of a settled script.
#![tactic(auto)]

pub mod closed_runs;
mod closing;
mod dispatching;
pub mod facts;
pub mod laws;
mod replaying;
mod run;
mod running;
mod whole;

pub use closing::close;
pub use dispatching::dispatch;
pub use kernel_events::{Event, Full, Kernel, PipeStatus, Report, Schedule, Stranger, Task};
pub use kernel_runs::{Order, ReplayFault, RunOneFault};
pub use kernel_threads::{Gate, MAX_HARTS, OpenGate, Run, RunFault, Seat, Shared, Turn};
pub use replaying::replay;
pub use run::{run_in_order, run_one};
pub use running::run_harts;
pub use script_load::MAX_TURNS;
pub use whole::run_whole;
