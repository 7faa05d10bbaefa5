//! The descriptors of a process, and the open-file entries that all processes share. Nothing here takes memory.
//!
//! The behaviour is that of xv6's `kernel/file.c` and of the descriptor calls in its `kernel/sysfile.c`: a descriptor
//! is a place in a table of 16, a place holds an entry of a table of 100, and an entry counts the descriptors that
//! hold it.
#![tactic(auto)]

mod descriptors;
mod entries;
mod faults;
pub mod laws;
mod names;

pub use descriptors::{DESCRIPTORS, Fds};
pub use entries::{ENTRIES, Entry, OpenFiles};
pub use faults::FdFault;
pub use names::{Mode, NAME_SIZE, Name, Object};
