//! The notes on a script in sentences, each with its line and marks under the places that it speaks of.
#![tactic(auto)]

pub mod laws;
mod marks;
mod sentences;
mod texts;

pub use sentences::sentence;
pub use texts::text_of_notes;
