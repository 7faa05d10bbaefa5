//! The commands of `xvsh step`: from a line of its input to what the line asks for.
#![tactic(auto)]

mod command;
mod cutting;
mod guessing;
mod meaning;
mod name;
mod reading;

pub use command::{Command, Goal, Mistake};
pub use guessing::nearest;
pub use name::{NAMES, Name};
pub use reading::command_of;
