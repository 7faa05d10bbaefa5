//! Names that a script uses, and that no file can have when it runs.
#![tactic(auto)]

mod missing;
mod telling;

pub use missing::{Missing, missing_names};
pub use telling::text_of_missing;
