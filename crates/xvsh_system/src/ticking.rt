//! What shows on a terminal that a run goes on.

use std::io::{self, Write};
use std::sync::{Condvar, CondvarTimeouts, Mutex, Wait};
use std::time::{Clock, Duration};

// For so many seconds a run goes on before that is shown, and then what is shown stays.
const PAUSE: u64 = 1;

// Takes what is shown from the terminal's line.
const CLEARED: &str = "\r\x1b[K";

// How the work stands.
#[derive(Drop)]
struct Work {
    // Since when it goes on; nothing while something is read, and once the output is written.
    since: Option<Duration>,
    // Whether something stands on the terminal's line.
    is_shown: bool,
    is_over: bool,
}

/// Shows on standard error, once a second, for how long the work goes on. Whoever works calls it when it reads or writes, so that
/// nothing is shown then.
#[derive(Drop)]
pub struct Ticker {
    work: Mutex<Work>,
    over: Condvar,
}

// Shows for how long the work goes on, if that is a second or more.
fn show<R: Clock + Eprint>(rt: &R, work: &mut Work) {
    let Some(since) = work.since else {
        return;
    };
    let Ok(now) = rt.monotonic() else {
        return;
    };
    let seconds = now.saturating_sub(since).as_secs();
    if PAUSE <= seconds {
        work.is_shown = true;
        let _ = eprint!(rt; "\rrunning, {seconds} s\x1b[K");
    }
}

impl Ticker {
    /// One that shows nothing yet.
    pub fn new() -> Ticker {
        Ticker {
            work: Mutex::new(Work {
                since: None,
                is_shown: false,
                is_over: false,
            }),
            over: Condvar::new(),
        }
    }

    /// Work goes on, from now.
    pub fn works<R: Wait + Clock>(&self, rt: &R) {
        let now = rt.monotonic().ok();
        let mut work = self.work.lock(rt);
        work.since = now;
    }

    /// No work goes on: something is read or written. What is shown is taken away.
    pub fn rests<R: Wait + Eprint>(&self, rt: &R) {
        let mut work = self.work.lock(rt);
        work.since = None;
        if work.is_shown {
            work.is_shown = false;
            let _ = rt.eprint(CLEARED);
        }
    }

    /// The work is over, and `ticks` returns.
    pub fn ends<R: Wait>(&self, rt: &R) {
        let mut work = self.work.lock(rt);
        work.is_over = true;
        self.over.notify_all();
    }

    /// Shows how the work goes on until it is over.
    pub fn ticks<R: Wait + Clock + Eprint>(&self, rt: &R) {
        let mut work = self.work.lock(rt);
        for _ in rt.forever() {
            if work.is_over {
                return;
            }
            work = self
                .over
                .wait_timeout(rt, work, Duration::from_secs(PAUSE))
                .0;
            show(rt, &mut work);
        }
    }
}

/// A writer before whose bytes what a ticker shows is taken away.
#[derive(Drop)]
pub struct Quieting<'t, R, W> {
    pub rt: &'t R,
    pub ticker: Option<&'t Ticker>,
    pub writer: W,
}

impl<R: Wait + Eprint, W: Write> Write for Quieting<'_, R, W> {
    fn write(&mut self, buf: &[u8]) -> io::Result<usize> {
        if let Some(ticker) = self.ticker {
            ticker.rests(self.rt);
        }
        self.writer.write(buf)
    }

    fn flush(&mut self) -> io::Result<()> {
        self.writer.flush()
    }
}
