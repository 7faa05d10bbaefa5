//! Computes what a script needs at most, and whether it is within xv6's tables.
#![tactic(auto)]

mod beginning;
mod behind;
mod capped;
mod capped_growth;
mod crowd;
mod given;
mod grown;
mod growth;
mod lack;
pub mod laws;
mod needs;
mod opens;
mod program;
mod room;
mod table;
mod written;

pub use behind::{Behind, behind_of, first_behind};
pub use capped::MAX_COUNT;
pub use capped_growth::MAX_GROWTH;
pub use crowd::first_crowded;
pub use growth::growth_of;
pub use lack::{Lack, first_without_room, is_roomy};
pub use opens::has_few_opens;
pub use room::{Room, room_of};
pub use table::{MOST_BYTES, MOST_DESCRIPTORS, MOST_ENTRIES, MOST_FILES, MOST_PROCESSES, Table};
