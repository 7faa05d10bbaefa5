//! The kernel: xv6's `kernel/proc.c`, `file.c`, `pipe.c` and `sysfile.c` as one value to which two kinds of events
//! happen.
//!
//! A dispatch hands a Runnable process to a hart; a trap carries out the system call that the process then made. Which
//! process is dispatched is left open, and memory may be refused; all else is a function of the events, and the type
//! keeps that its state is the one that its schedule leads to.
#![tactic(auto)]

mod happening;
mod kernel;
mod log;
mod report;
mod setting;
mod status;

pub use kernel::{Kernel, Stranger};
pub use kernel_calls::{PipeStatus, Task};
pub use kernel_model::{Event, Full};
pub use report::{Report, Schedule};
pub use setting::Setting;
