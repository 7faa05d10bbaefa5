//! How much memory a search may take, and how much the program takes, as the system says.

use std::fs::File;
use std::io::Read;
use std::rt::Files;

// Bytes of a mebibyte, and of a kibibyte.
const MEBIBYTE: u64 = 1 << 20;

const KIBIBYTE: u64 = 1 << 10;

// After so many states more the system is asked how much memory the program takes.
const STEP: usize = 128;

/// How much memory the program may take while it searches, in bytes, if there is a bound.
#[derive(Clone, Copy)]
pub struct Budget {
    bytes: Option<u64>,
    // At how many states the system is asked next.
    next: usize,
}

// How many bytes a file of the system says, in kibibytes, behind this word. The word stands among the first bytes of the file.
fn bytes_said(rt: &impl Files, path: &str, word: &str) -> Option<u64> {
    let mut room = [0; 2048];
    let mut file = File::open(rt, path).ok()?;
    let count = file.read(&mut room[..]).ok()?;
    let text = str::from_utf8(room.get(..count)?).ok()?;
    let mut words = text.split_whitespace();
    words.find(|it| *it == word)?;
    words.next()?.parse::<u64>().ok()?.checked_mul(KIBIBYTE)
}

// How many bytes of memory the program takes, if the system says it.
fn taken(rt: &impl Files) -> Option<u64> {
    bytes_said(rt, "/proc/self/status", "VmRSS:")
}

// How many bytes of memory programs can still get, if the system says it.
fn free(rt: &impl Files) -> Option<u64> {
    bytes_said(rt, "/proc/meminfo", "MemAvailable:")
}

impl Budget {
    /// No bound.
    pub fn unbounded() -> Budget {
        Budget {
            bytes: None,
            next: 0,
        }
    }

    /// So many mebibytes; without a number half of what the system says is free, and no bound where it doesn't say that.
    pub fn new(rt: &impl Files, mebibytes: Option<u64>) -> Budget {
        let bytes = match mebibytes {
            Some(count) => Some(count.saturating_mul(MEBIBYTE)),
            None => free(rt).map(|bytes| bytes / 2),
        };
        Budget { bytes, next: 0 }
    }

    // Whether a search that found so many states may go on.
    pub fn allows(&mut self, rt: &impl Files, count: usize) -> bool {
        let Some(most) = self.bytes else {
            return true;
        };
        if count < self.next {
            return true;
        }
        self.next = count.saturating_add(STEP);
        match taken(rt) {
            Some(bytes) => bytes <= most,
            None => true,
        }
    }
}
