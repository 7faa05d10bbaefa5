//! Explorations of scripts: what `explore` reads and finds.
#![tactic(auto)]

mod exploring;
mod fault;
mod request;

pub use exploring::{Explored, explore_start, run_explore};
pub use fault::ExploringFault;
pub use request::{ExploreRequest, MAX_STATES};
pub use script_outcomes::{Conclusion, Found, Tried, Watch, concluded};
