//! What a play shows: states of a script's run, the turns that are offered in each, and which outcomes can still come of it.
//!
//! Whoever walks over the states says which there are (`Spot`); what is shown of each is found by exploring what can follow it.
#![tactic(auto)]

mod fault;
mod ground;
mod places;
mod spots;
mod telling;

pub use every_order::{
    Exploration, ExploreFault, Extent, Outcome, Setting, Unwatched, Watch, explore_watched,
};
pub use fault::PlayFault;
pub use ground::Ground;
pub use spots::{Budget, Play, Shown, Spot, Turn};
