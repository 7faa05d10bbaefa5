//! What whoever sits at a terminal is shown while the program works.

use crate::colours::When;
use std::io::{self, Write};
use std::time::Duration;

/// A terminal, if there is one.
#[derive(Drop)]
pub struct Terminal<E> {
    /// Standard error.
    pub err: E,
    /// Whether standard input is a terminal.
    pub reads: bool,
    /// Whether standard output is one.
    pub writes: bool,
    /// Whether standard error is one.
    pub shows: bool,
    /// When what is written there has colours.
    pub colours: When,
}

// After so many states more the clock is read.
const STEP: usize = 256;

// For so many seconds a search goes on before it is shown, and what is shown stays.
const PAUSE: u64 = 1;

// When something is shown next, after now.
fn next_after(now: Duration) -> Option<Duration> {
    now.checked_add(Duration::from_secs(PAUSE))
}

/// How far something is: so many, of how many where that is known, of what.
#[derive(Clone, Copy)]
pub struct Step<'w> {
    pub count: usize,
    pub of: Option<usize>,
    pub what: &'w str,
    /// Whether it is shown at which pace it goes on.
    pub has_pace: bool,
}

/// Shows on a terminal how far a search is.
#[derive(Drop)]
pub struct Progress {
    // When it was seen first, if that is known.
    begun: Option<Duration>,
    // When it is shown next, if that is known.
    due: Option<Duration>,
    // At how many states the clock is read next.
    next: usize,
    // Whether something stands on the terminal's line.
    is_shown: bool,
}

// How many of so many there are in a second of the time that was taken.
fn pace(count: usize, taken: Duration) -> u64 {
    let seconds = taken.as_secs();
    if seconds == 0 {
        count as u64
    } else {
        count as u64 / seconds
    }
}

// Writes how far something is, and at which pace it goes on, where that says something.
fn write_step<E: Write>(err: &mut E, step: Step<'_>, pace: u64) -> io::Result<()> {
    let Step {
        count,
        of,
        what,
        has_pace,
    } = step;
    write!(err, "\r{count}")?;
    if let Some(of) = of {
        write!(err, " of {of}")?;
    }
    if has_pace {
        write!(err, " {what}, {pace} a second\x1b[K")
    } else {
        write!(err, " {what}\x1b[K")
    }
}

impl Progress {
    /// Nothing is shown yet.
    pub fn new() -> Progress {
        Progress {
            begun: None,
            due: None,
            next: 0,
            is_shown: false,
        }
    }

    // Whether the clock is read at so many states.
    pub fn is_due(&self, count: usize) -> bool {
        count >= self.next
    }

    // Shows how far something is, if it is time to.
    pub fn show<E: Write>(&mut self, err: &mut E, step: Step<'_>, now: Duration) {
        self.next = step.count.saturating_add(STEP);
        let begun = self.begun.unwrap_or(now);
        self.begun = Some(begun);
        let Some(due) = self.due else {
            self.due = next_after(now);
            return;
        };
        if now >= due {
            self.is_shown = true;
            self.due = next_after(now);
            let _ = write_step(err, step, pace(step.count, now.saturating_sub(begun)));
        }
    }

    // Takes what is shown from the terminal's line.
    pub fn clear<E: Write>(&mut self, err: &mut E) {
        if self.is_shown {
            let _ = err.write_all(b"\r\x1b[K");
        }
        *self = Progress::new();
    }
}
