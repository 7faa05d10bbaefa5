//! The names that trees of commands read and write, and the files at which commands of one tree may
//! meet: one of them writes the file, and another reads or writes it.
#![tactic(auto)]

mod clashes;
mod conflict;
pub mod laws;
mod questions;

pub use clashes::{clash, has_name_of};
pub use conflict::{Clash, ClashKind};
pub use questions::{has_back, names_it, reads_it, uses_input, writes_it};
