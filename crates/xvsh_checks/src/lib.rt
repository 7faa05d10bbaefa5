//! What is found in a script before any run: what `check` and `explain` read and find, as values.
#![tactic(auto)]

mod counting;
mod finding;
mod fixing;
mod found;
mod lacks;
mod noting;
mod request;
mod room_found;
mod rooms;
mod whys;

pub use counting::{CountedFindings, run_count};
pub use finding::{Findings, run_find};
pub use fixing::run_fix;
pub use found::Finding;
pub use lacks::lack_of;
pub use noting::{Noted, run_note};
pub use request::{CheckRequest, ExplainRequest};
pub use room_found::{Growth, RoomFound};
pub use rooms::{RoomFindings, find_room, is_fine, run_find_room};
pub use whys::{NotedWhys, find_whys, run_note_whys};
