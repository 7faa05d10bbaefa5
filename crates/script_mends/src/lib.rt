//! Mends a script that isn't settled, by rules, where that makes it settled.
#![tactic(auto)]

mod lines;
mod mending;
mod names;
mod pipes;
mod rounds;
mod task;

pub use rounds::{MOST_MENDS, MendFault, mend};
pub use task::Task;
