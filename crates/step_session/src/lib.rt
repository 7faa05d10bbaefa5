//! A run whose reader chooses which process takes the next turn, and what can still come of it.
#![tactic(auto)]

mod fault;
mod rest;
mod rest_fault;
mod session;
mod turning;

pub use every_order::{Exploration, Outcome, Unwatched, Watch};
pub use fault::{BackFault, ChooseFault};
pub use rest::outcomes_from;
pub use rest_fault::RestFault;
pub use session::{Beginning, Session};
