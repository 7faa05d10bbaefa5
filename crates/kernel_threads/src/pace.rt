//! Where a hart takes its turns, and how long it keeps the kernel.

use std::time::{Clock, Duration, Instant};

// How many turns a hart takes between two looks at the clock.
pub(crate) const BATCH: u32 = 64;

// How long a hart keeps the kernel, in microseconds, before another may have it: to wake one costs some tenth of that.
const TICK: u64 = 4_000;

// A batch that takes longer, in microseconds, is slow.
const SLOW_BATCH: u64 = 640;

// So many slow batches, one after the other, have processes that compute for long between two calls. One alone may have been
// interrupted by the system.
const SLOW_BATCHES: u32 = 2;

// So many turns are then taken outside the lock, before a batch is tried again.
const OUTSIDE: u32 = 1_024;

// Where a hart takes its next turns: with the kernel in its hands, which costs least; or, once processes were found to compute
// for long between two calls, with the user code outside the lock, so that harts compute side by side.
#[derive(Clone, Copy)]
pub(crate) struct Pace {
    outside: u32,
    slow: u32,
}

impl Pace {
    pub(crate) fn new() -> Pace {
        Pace {
            outside: 0,
            slow: 0,
        }
    }

    // Whether the next turns are taken with the kernel in hand.
    pub(crate) fn is_quick(&self) -> bool {
        self.outside == 0
    }

    // One turn was taken outside.
    pub(crate) fn counts(&mut self) {
        self.outside = self.outside.saturating_sub(1);
    }

    // A batch took so long.
    fn notes(&mut self, took: Duration) {
        if took <= Duration::from_micros(SLOW_BATCH) {
            self.slow = 0;
            return;
        }
        self.slow = self.slow.saturating_add(1);
        if SLOW_BATCHES <= self.slow {
            self.outside = OUTSIDE;
        }
    }
}

// The time that a hart has had the kernel.
#[derive(Drop)]
pub(crate) struct Tick {
    begun: Option<Instant>,
    looked: Option<Instant>,
}

impl Tick {
    pub(crate) fn begin<R: Clock>(rt: &R) -> Tick {
        let begun = Instant::now(rt).ok();
        Tick {
            begun,
            looked: begun,
        }
    }

    // Whether the hart keeps the kernel for another batch after the one that it has just taken. It doesn't where the clock can't
    // be read.
    pub(crate) fn goes_on<R: Clock>(&mut self, rt: &R, pace: &mut Pace) -> bool {
        let now = Instant::now(rt).ok();
        let (Some(begun), Some(looked), Some(now)) = (self.begun, self.looked, now) else {
            return false;
        };
        pace.notes(now.duration_since(looked));
        self.looked = Some(now);
        pace.is_quick() && now.duration_since(begun) < Duration::from_micros(TICK)
    }
}
