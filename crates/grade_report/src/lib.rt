//! Reports of what tests say of scripts: a text for people, and what other programs read.
#![tactic(auto)]

mod gradescope;
mod objects;
mod rows;
mod sentences;
mod table;
mod tap;

pub use gradescope::gradescope_text;
pub use objects::object_text;
pub use rows::{Row, Sum, sum_of};
pub use sentences::{sentence_of, word_of};
pub use table::table_text;
pub use tap::tap_text;
