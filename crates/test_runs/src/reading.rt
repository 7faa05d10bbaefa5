//! Reading to the end: within the limit, past it, and where a read fails or is interrupted.

use std::io::{self, Read};
use std::process::Abort;
use std::test::Fail;
use xvsh_read::{HostFault, read_all};

// A reader that gives one byte a read for as long as there are some, and then ends, or fails so; it counts how often it is asked.
#[derive(Drop)]
struct Counting<'a> {
    left: usize,
    fault: Option<io::ErrorKind>,
    asked: &'a mut usize,
}

impl Read for Counting<'_> {
    fn read(&mut self, buf: &mut [u8]) -> io::Result<usize> {
        *self.asked = self.asked.saturating_add(1);
        if self.left == 0 || buf.is_empty() {
            return match self.fault {
                Some(kind) => Err(io::Error::from(kind)),
                None => Ok(0),
            };
        }
        self.left -= 1;
        buf[0] = b'x';
        Ok(1)
    }
}

// How many bytes may be read.
const LIMIT: usize = 5;

// What is read of so many bytes is reported, and the reader is asked once more than that, or than the limit.
fn is_read<R: Abort + AllocGlobal>(rt: &R, left: usize, fault: Option<io::ErrorKind>) {
    let mut asked = 0;
    let reader = Counting {
        left,
        fault,
        asked: &mut asked,
    };
    let is_right = match read_all(rt.alloc(), reader, LIMIT) {
        Ok(bytes) => bytes.as_slice() == b"xxxxx".get(..left).unwrap_or(b"?") && fault.is_none(),
        Err(HostFault::Unreadable) => left <= LIMIT && fault.is_some(),
        Err(HostFault::TooLong) => LIMIT < left,
        Err(_) => false,
    };
    assert!(rt; is_right, "{left} bytes");
    assert_eq!(rt; asked, left.min(LIMIT) + 1);
}

#[test]
fn what_is_read_is_reported(rt: HostRuntime) -> Result<(), Fail> {
    let faults = [
        None,
        Some(io::ErrorKind::Other),
        Some(io::ErrorKind::Interrupted),
    ];
    for left in 0..9 {
        for fault in faults {
            is_read(&rt, left, fault);
        }
    }
    Ok(())
}
