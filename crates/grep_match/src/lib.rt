//! Decides whether a text matches a pattern, as `user/grep.c`'s `match` does.
#![tactic(auto)]

mod item;
pub mod laws;
mod literal;
mod marks;
mod matching;
mod search;
mod states;

pub use matching::is_match;
