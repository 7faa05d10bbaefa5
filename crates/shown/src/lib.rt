//! Bytes as text on one line.
#![tactic(auto)]

mod bytes;
mod code;
pub mod laws;

pub use bytes::{add_name, add_shown};
pub use code::{Code, code_of};
