//! What each event of a run does, reported as it happens.
//!
//! A tracer holds a kernel and lets events happen in it. After each it reports the call that was carried out, who was woken,
//! made and gone, what was added to the output and the diagnostics, and what was full for the first time. All else is shown
//! by the kernel, which it lends.
#![tactic(auto)]

mod before;
mod holders;
pub mod laws;
mod states;
mod tracer;

pub use holders::{End, pipe_end};
pub use kernel_events::{Event, Full, Kernel, PipeStatus};
pub use tracer::Tracer;
