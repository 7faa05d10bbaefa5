//! Every order of a script's processes: what each can leave, tried whole or in samples, and the diagnostics that all of them write.
#![tactic(auto)]

mod diagnosing;
mod exploring;
mod going_on;
mod known;
mod outcomes;
mod sampling;

pub use diagnosing::{STATES, diagnostics_of};
pub use exploring::{Extent, explore, explore_watched, origin_of};
pub use going_on::explore_after;
pub use kernel_events::Setting;
pub use known::Diagnostics;
pub use order_search::{
    Ahead, Exploration, ExploreFault, Origin, Outcome, Unwatched, Watch, are_alike, only_after,
};
pub use sampling::add_samples;
