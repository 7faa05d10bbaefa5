//! What is known of a script's room.

use room_bounds::{Behind, Lack, Room};

/// How many files a script with a clash or a `&` makes there be at most, and how large they become (own).
#[derive(Clone, Copy, Debug)]
pub struct Growth {
    /// Files: those that are there, and one for each place that names a file that is written; `None` where that is more than 1,000,000.
    pub files: Option<u64>,
    /// By how many bytes each file that the script writes grows at most.
    pub bytes: u64,
}

/// What a check finds of the room that a script needs (own).
#[derive(Clone, Copy, Debug)]
pub enum RoomFound {
    /// A line has a clash or a `&`: how many processes, open files and descriptors it needs at most, how many files there may be and by
    /// how much they grow, where that is known, and with which line first it may need more processes or descriptors than there are.
    Part {
        behind: Behind,
        growth: Option<Growth>,
        lack: Option<Lack>,
    },
    /// What it needs at most, and with which line first it may not have room.
    Known {
        room: Room,
        lack: Option<Lack>,
    },
}
