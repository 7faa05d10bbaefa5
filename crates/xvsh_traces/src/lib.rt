//! What `run --trace` writes, and the lines of the script that diagnostics come from.
#![tactic(auto)]

mod diagnostics;
mod fault;
mod memory;
mod writing;

pub use diagnostics::lined;
pub use fault::TraceFault;
pub use memory::trace_text;
pub use writing::{script_text, trace_run};
