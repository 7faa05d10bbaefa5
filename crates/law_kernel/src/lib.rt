//! What holds of a kernel in every run, whatever its programs are and in whatever order its processes run: laws, no code.
//!
//! `outcomes` has how each system call ends, `kernel` that no wake-up is lost and that a pipe gives what was put into it, `lengths` how long a run is.
#![tactic(auto)]

pub mod kernel;
pub mod lengths;
pub mod outcomes;
