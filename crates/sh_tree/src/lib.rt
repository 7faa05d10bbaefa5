//! Trees of commands: the grammar of a shell line (xv6's `user/sh.c`), as a parser over any
//! allocator.
#![tactic(auto)]

mod automaton;
mod fault;
pub mod laws;
mod limits;
mod parser;
mod parts;
mod tree;
mod words;

pub use fault::ParseFault;
pub use limits::{has_few_words, is_short};
pub use parser::parse;
pub use tree::{Cmd, Mode, copy_in, same};
pub use words::Words;
