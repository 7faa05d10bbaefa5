//! Runs of a script on harts that are threads: one kernel under one lock.
#![tactic(auto)]

mod faults;
mod gates;
mod locked;
mod naming;
mod pace;
mod passing;
mod patience;
mod running;
mod seats;
mod sharing;

pub use faults::{MAX_HARTS, RunFault};
pub use gates::{Gate, OpenGate};
pub use naming::Run;
pub use running::run_harts;
pub use seats::Seat;
pub use sharing::{Shared, Turn};
