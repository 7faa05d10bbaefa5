//! What `step` is asked for, and where it keeps schedules.

use xvsh_read::{Source, Unwritten};

/// A session with a script.
#[derive(Clone, Copy, Debug)]
pub struct StepRequest<'a> {
    pub source: Source<'a>,
    /// The path of the schedule with which the session begins, if there is one.
    pub schedule: Option<&'a str>,
    /// Answer with JSON, an object a line.
    pub is_json: bool,
    /// Whether a person at a terminal asks, who is shown a prompt and, where answers are text, the processes.
    pub is_terminal: bool,
}

/// Where schedules are kept: the system, or a test's memory.
pub trait Keep {
    /// Writes the bytes to the file at the path, in place of what it holds. `Unwritten` where that can't be, or not whole.
    fn keep(&mut self, path: &str, bytes: &[u8]) -> Result<(), Unwritten>;
}
