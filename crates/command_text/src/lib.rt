//! Commands as text, and which command each process of a run carries out.
//!
//! What a process carries out follows from its calls and the replies to them, as `user/sh.c` makes them; nothing is asked
//! of the machines. All is for readers: no law speaks of it, and tests compare it with worked runs.
#![tactic(auto)]

mod doing;
mod followed;
mod text;

pub use doing::{Doing, Node};
pub use followed::Followed;
pub use text::{append_command, append_words};
