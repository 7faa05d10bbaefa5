//! Runs scripts of xv6's shell on the system: all of the program but its `main`.
#![tactic(auto)]

mod colours;
mod grading;
mod memory;
mod program;
mod stepping;
mod system;
mod terminal;
mod ticking;
mod usage;

pub use colours::When;
pub use program::run;
pub use terminal::Terminal;
