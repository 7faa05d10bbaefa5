//! Lines, each of which is read when it is asked for.

ghost use Rattle.std.specs.Prelude.{◌≤◌};
ghost use Rattle.xvsh_steps.specs.declared.lines.TheConstants.{CHUNK_SIZE};

use std::alloc::AllocError;
use std::io::Read;

/// The most bytes of a line (own). A longer one is read to its end, and its bytes are let go.
pub const MOST_BYTES: usize = 4096;

// How many bytes are asked for at once.
const CHUNK_SIZE: usize = 4096;

/// What there was where a line was asked for.
#[derive(Clone, Copy, Debug, PartialEq, Eq)]
pub enum Got {
    /// A line.
    Line,
    /// A line of more than `MOST_BYTES` bytes.
    TooLong,
    /// Nothing: the end.
    End,
    /// A read failed.
    Unreadable,
}

/// A reader, line by line. It asks for no more than what is there, so that whoever writes lines sees the answer to each.
#[derive(Drop)]
pub struct LineReader<R: Drop> {
    reader: R,
    chunk: [u8; CHUNK_SIZE],
    // Which bytes of the chunk are left.
    begin: usize,
    end: usize,
    ghost ordered: { begin ≤ end },
    ghost within: { end ≤ CHUNK_SIZE },
}

// Adds the bytes to the line, if it isn't longer than a line may be then, and else empties it; and returns whether it isn't.
fn take(line: &mut Vec<u8>, bytes: &[u8], fits: bool) -> Result<bool, AllocError> {
    if !fits || line.len().saturating_add(bytes.len()) > MOST_BYTES {
        line.clear();
        return Ok(false);
    }
    line.extend_from_slice(bytes)?;
    Ok(true)
}

// What a line is that fits, or doesn't.
fn kind_of(fits: bool) -> Got {
    if fits { Got::Line } else { Got::TooLong }
}

impl<R: Read + Drop> LineReader<R> {
    /// A reader of these lines, of which none was read.
    pub fn new(reader: R) -> Self {
        LineReader {
            reader,
            chunk: [0; CHUNK_SIZE],
            begin: 0,
            end: 0,
        }
    }

    // Reads the next bytes, if none is left. It returns how many are left then; `None` where a read failed.
    fn fill(&mut self) -> Option<usize> {
        if self.begin == self.end {
            let Ok(count) = self.reader.read(&mut self.chunk) else {
                return None;
            };
            self.begin = 0;
            self.end = count;
        }
        Some(self.end - self.begin)
    }

    // Takes the bytes that are left up to the line's end. It returns whether the line fits, and whether it ended.
    fn take_part(&mut self, line: &mut Vec<u8>, fits: bool) -> Result<(bool, bool), AllocError> {
        let left = &self.chunk[self.begin..self.end];
        match left.iter().position(|byte| *byte == b'\n') {
            Some(at) => {
                let fits = take(line, &left[..at], fits)?;
                self.begin += at + 1;
                Ok((fits, true))
            }
            None => {
                let fits = take(line, left, fits)?;
                self.begin = self.end;
                Ok((fits, false))
            }
        }
    }

    /// Writes the next line, without its LF, in place of what is in `line`, and nothing where it is too long. The last line may lack its
    /// LF.
    pub fn next_line(&mut self, line: &mut Vec<u8>) -> Result<Got, AllocError> {
        line.clear();
        let mut has_begun = false;
        let mut fits = true;
        for _ in 0..u64::MAX {
            match self.fill() {
                None => return Ok(Got::Unreadable),
                Some(0) => return Ok(if has_begun { kind_of(fits) } else { Got::End }),
                Some(_) => {}
            }
            has_begun = true;
            let (still_fits, has_ended) = self.take_part(line, fits)?;
            fits = still_fits;
            if has_ended {
                return Ok(kind_of(fits));
            }
        }
        Ok(kind_of(fits))
    }
}
