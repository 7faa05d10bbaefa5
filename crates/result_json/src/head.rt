//! How each object begins.

use std::alloc::{AllocError, Global};
use trace_lines::Line;
use xvsh_read::Status;

/// The version of the format.
const VERSION: u64 = 1;

/// An object that opens with what each result says (own): `format`, `version`, `command`, `status`, a word for how the command
/// ended, and `code`, the status with which the program ends.
///
/// `AllocError` where memory for the text is refused.
pub fn begin_result(
    alloc: Global,
    command: &str,
    status: &str,
    code: Status,
) -> Result<Line, AllocError> {
    let mut line = Line::begin(alloc, Vec::new(alloc))?;
    line.word("format", "xvsh-result")?;
    line.count("version", VERSION)?;
    line.word("command", command)?;
    line.word("status", status)?;
    line.count("code", u64::from(code.code()))?;
    Ok(line)
}
