//! Lists of slots, each slot in one list at most: a queue for each of eight harts, and 64 lists of sleepers, one a channel.
//!
//! The lists are linked in arrays by the numbers of the slots, so that a slot is added at the end of a list, and taken
//! out of any place, in a few steps. Nothing here takes memory. All of this is own: xv6 scans its table.
#![tactic(auto)]

mod groups;
mod lists;
mod sets;

pub use groups::SlotGroups;
pub use lists::{LISTS, SLOTS, SlotLists};
pub use sets::SlotSet;
