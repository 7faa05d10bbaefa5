//! The kernel's state in memory, and its ten calls.
#![tactic(auto)]

mod blocks;
mod booting;
mod closing;
mod copying;
mod descriptors;
mod dispatching;
mod named;
mod opening;
mod pipes;
mod piping;
mod processes;
mod reading;
mod state;
mod status;
mod trapping;
mod unread;
mod writing;

pub use blocks::first_bytes;
pub use dispatching::Task;
pub use pipes::Pipes;
pub use state::State;
pub use status::PipeStatus;
pub use trapping::trap;
pub use unread::Unread;
