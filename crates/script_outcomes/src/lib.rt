//! What a script can leave: its one answer, or what trying orders finds, and which two outcomes are shown beside each other.
#![tactic(auto)]

mod concluding;
mod contrast;
mod finding;
mod naming;
mod pair;
mod sorting;

pub use concluding::{Conclusion, concluded, is_single, is_whole};
pub use every_order::{Exploration, ExploreFault, Outcome, Setting, Unwatched, Watch};
pub use finding::{Found, Limits, Tried, outcomes_of};
pub use naming::named_pair;
pub use pair::{MOST_PAIRED, Pair, clearest_pair, shown_pair};
pub use sorting::sorted;
