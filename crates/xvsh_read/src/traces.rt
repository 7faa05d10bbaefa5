//! Where traces and schedules are written.

use crate::writing::Unwritten;

/// Where traces and schedules are written: the system, or a test's memory.
pub trait Traces {
    /// Makes the folder at the path, and those that it is in, unless they are there.
    ///
    /// `Unwritten` where it can't be made, and for an empty path.
    fn make_folder(&mut self, path: &str) -> Result<(), Unwritten>;

    /// Begins a trace at the path, which is empty then; for `-` on standard output.
    ///
    /// `Unwritten` where it can't be made.
    fn begin_trace(&mut self, path: &str) -> Result<(), Unwritten>;

    /// Writes all these bytes behind those of the trace that was begun last.
    ///
    /// `Unwritten` where it takes no more, and where none was begun.
    fn write_trace(&mut self, bytes: &[u8]) -> Result<(), Unwritten>;
}
