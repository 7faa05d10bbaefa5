//! The table of processes.
//!
//! The behaviour is that of xv6's `kernel/proc.c`: a process is a slot of a table of 64. Where xv6
//! scans the slots, here the states and the parents stand apart from the machines, grouped by what is searched for; the
//! numbers of Runnable slots stand in the queues of the harts, and those of sleepers in the lists of their channels.
//! There are no locks and no contexts: a call is one step of the whole table. Only `Procs::new` takes memory.
#![tactic(auto)]

mod answers;
mod channels;
mod heads;
pub mod laws;
mod pid;
mod process;
mod queues;
mod states;
mod table;

pub use answers::Answer;
pub use pid::{PROCS, Pid};
pub use process::Process;
pub use states::{Channel, State, Status};
pub use table::{FullProcs, HARTS, Procs, Waited};
