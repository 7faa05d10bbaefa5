//! Says in sentences why a script isn't settled, or that it is, and what mends it.
#![tactic(auto)]

mod parts;
mod saying;
mod to_settle;

pub use saying::{add_reason, first_reason, why};
pub use to_settle::ways;
