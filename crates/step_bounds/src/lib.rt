//! How many steps a script makes at most, how many turns are enough for it, and by how much its lines make files grow, computed.
#![tactic(auto)]

mod adding;
mod bytes;
mod capped;
mod cost;
mod enough;
mod program;
mod steps;
mod tree;

pub use bytes::grown_after;
pub use capped::MAX_STEPS;
pub use enough::turns_enough;
pub use steps::most_steps;
