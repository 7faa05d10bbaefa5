//! Lines of a script that do nothing, since they are no command or name no program, and what is reported of them.
#![tactic(auto)]

mod hints;
mod lines;

pub use hints::hints_of;
pub use lines::{bad_lines, dead_lines};
