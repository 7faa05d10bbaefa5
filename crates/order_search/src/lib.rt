//! All orders in which the processes of a kernel can take their turns, for programs that are any machines.
#![tactic(auto)]

mod after;
mod fault;
mod kept;
mod looks;
mod numbers;
mod ordering;
mod origin;
mod outcomes;
mod parts;
mod places;
mod pools;
mod private;
mod ranks;
mod reading;
mod renumbering;
mod seen;
mod standing;
mod trail;
mod turning;
mod unchanged;

pub use after::{are_alike, only_after};
pub use closed_search::{Unwatched, Watch};
pub use fault::ExploreFault;
pub use ordering::{Exploration, explore_after, explore_from};
pub use origin::{Ahead, Origin};
pub use outcomes::Outcome;
