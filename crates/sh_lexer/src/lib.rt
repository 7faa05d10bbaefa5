//! Cuts a line of a script into tokens, as `user/sh.c`'s `gettoken` does.
#![tactic(auto)]

mod bytes;
pub mod laws;
mod lexer;
mod token;

pub use bytes::Bytes;
pub use lexer::{is_white, tokens};
pub use token::{Kind, Token};
