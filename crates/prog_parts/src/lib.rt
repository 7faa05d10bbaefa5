//! The six programs by their names, what their arguments say, and what they do with bytes in hand: the
//! lines of `grep`, the arguments of `head`, the counts of `wc`. Nothing here takes memory.
#![tactic(auto)]

mod counts;
mod head;
pub mod laws;
mod lines;
mod program;
mod words;

pub use counts::{Counted, count};
pub use head::head_request;
pub use lines::{BUFFER, is_whole, split_line};
pub use program::Program;
pub use words::{file_words, is_among, words_read, words_use_input, words_written};
