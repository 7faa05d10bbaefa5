//! The system calls of a program, the replies to them, and programs as machines that make them. Nothing here takes
//! memory.
//!
//! The calls are those of xv6's `user/user.h` that its shell and six programs make.
#![tactic(auto)]

mod block;
mod calls;
mod machine;
mod ran;
mod slots;

pub use block::{BLOCK_SIZE, Block};
pub use calls::{Call, Mode, Reply};
pub use machine::Machine;
pub use ran::Ran;
pub use slots::{CallKind, CallSlot, ReplyKind, ReplySlot};
