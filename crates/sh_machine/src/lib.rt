//! xv6's shell and its init as machines that make one system call at a time (`user/sh.c`, `user/init.c`). Nothing here
//! takes memory.
//!
//! | Node | Calls of the process that runs it |
//! |---|---|
//! | a command without words | Exit |
//! | a command | Exec; refused, the message `exec NAME failed` and Exit |
//! | a redirection | Close of 0 for `<`, else of 1, and OpenFile; refused, the message `open NAME failed` and Exit. Else the body |
//! | a list | Fork; the child runs the left side; the parent calls Wait and runs the right side |
//! | a pipe | MakePipe, Fork, Fork, Close of the read end, Close of the write end, Wait, Wait, Exit |
//! | its left child | Close of 1, Dup of the write end, Close of both ends, then the left side |
//! | its right child | Close of 0, Dup of the read end, Close of both ends, then the right side |
//! | `&` | Fork; the child runs the body; the parent exits and doesn't wait |
//!
//! The top shell calls Fork and Wait for each line in order; the child runs the line's tree, or writes what is wrong with
//! the line and exits. For a `cd` line it writes `cannot cd TEXT` itself (own). A refused Fork or MakePipe writes `fork`
//! or `pipe`, and ends the process. Each message ends in LF, is one Write to descriptor 2 (own; xv6 writes byte by byte),
//! and its reply is ignored. A reply that has no case here ends the process (own). Init calls Wait for ever.
#![tactic(auto)]

pub mod laws;
mod message;
mod naming;
mod node;
mod place;
mod rest;
mod says;
mod state;
mod turns;
mod user;

pub use naming::Naming;
pub use user::{User, UserState};
