//! Where the shortest runs to two outcomes part, in words.
//!
//! Two schedules that lead to two outcomes are made alike for as long as that changes neither outcome (`align`). What their
//! processes do at the first turn at which they differ then shows what the outcomes depend on (`part`). All is for readers: no
//! law speaks of it, and tests compare it with worked runs.
#![tactic(auto)]

mod aligning;
mod deeds;
mod names;
mod parting;
mod turner;
mod turns;

pub use aligning::{Way, align};
pub use kernel_events::Setting;
pub use parting::{Parting, part};
pub use turns::events_of;
