//! Runs of scripts: what the kernel stands for, that no run is stuck, how long it is, and what room it needs: laws, no code.
#![tactic(auto)]

pub mod bounds;
pub mod call_counts;
pub mod never_stuck;
pub mod room;
pub mod standing;
pub mod views;
