//! The reports of `check` and `explain` as text, each made of the values that were found.
#![tactic(auto)]

mod findings;
mod notes;
mod rooms;
mod turns;

pub use findings::text_of_findings;
pub use notes::{text_of_noted, text_of_whys};
pub use rooms::text_of_room;
pub use turns::text_of_counted;
