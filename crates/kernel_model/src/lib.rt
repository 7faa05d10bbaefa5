//! What a kernel is: its state as plain data, what each system call and each event does to it, laws of these definitions, and when
//! kernels are alike. There is no code here but the names of what can happen.
//!
//! The behaviour is that of xv6's `kernel/proc.c`, `file.c`, `pipe.c` and `sysfile.c`, as functions of the whole state.
#![tactic(auto)]

mod events;
pub mod laws;

pub use events::{Event, Full, Memory};
