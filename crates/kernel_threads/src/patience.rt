//! How a hart that finds nothing to do waits.

use std::thread;
use std::time::{Clock, Duration};

// The shortest sleep, in microseconds, which doubles so often at most: up to 640.
const SHORTEST: u64 = 10;

const DOUBLINGS: u32 = 6;

// How long a hart that finds nothing to do sleeps before it looks again: twice as long each time, and one doubling less once
// it has found something. So after a find it sleeps as long as the last time, or half as long where that was the longest, and
// a hart that is hardly needed takes little of a processor.
#[derive(Clone, Copy)]
pub(crate) struct Patience {
    doublings: u32,
    has_slept: bool,
}

impl Patience {
    pub(crate) fn new() -> Patience {
        Patience {
            doublings: 0,
            has_slept: false,
        }
    }

    // Something was found to do.
    pub(crate) fn ends(&mut self) {
        if self.has_slept {
            self.doublings = self.doublings.saturating_sub(1);
            self.has_slept = false;
        }
    }

    // Sleeps once more.
    pub(crate) fn wait<R: Clock>(&mut self, rt: &R) {
        let doublings = self.doublings.min(DOUBLINGS);
        thread::sleep(rt, Duration::from_micros(SHORTEST << doublings));
        self.doublings = (doublings + 1).min(DOUBLINGS);
        self.has_slept = true;
    }
}
