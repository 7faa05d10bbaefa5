//! `xvsh step`: whoever writes its standard input says which process takes the next turn, and reads on its standard output what
//! that did.
//!
//! A command is a line, and each answer is written and flushed before the next line is read, so that a person or a program in any
//! language can go by the answers.
#![tactic(auto)]

mod fault;
mod lines;
mod request;
mod starting;
mod talking;

pub use fault::StepFault;
pub use lines::{Got, LineReader, MOST_BYTES};
pub use request::{Keep, StepRequest};
pub use starting::step;
