//! The command line of the program.
#![tactic(auto)]

mod words;

pub use words::{Most, command_line};
