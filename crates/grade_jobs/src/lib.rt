//! Judges tests on scripts in several ways, side by side.
#![tactic(auto)]

mod every_way;
mod judging;
mod known;
mod runs;
mod ways;

pub use every_way::judge_every_way;
pub use judging::{Job, judge_all};
pub use known::Known;
pub use ways::{WAYS, Way};
