//! Schedules as text: a line an event, `D h pid` for a dispatch and `T h pid` for a trap.
#![tactic(auto)]

pub mod laws;
mod reading;
mod writing;

pub use reading::{ScheduleFault, number_of, read_schedule};
pub use writing::schedule_text;
