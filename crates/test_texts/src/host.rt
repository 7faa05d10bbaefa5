//! A host that has one suite, and the same script at every other path.

ghost use Rattle.std.specs.Prelude.{◌≤◌, None, IfOk, vec_len};

use std::alloc::Global;
use xvsh_grades::Grading;
use xvsh_read::{Host, HostFault};

/// The path of the suite.
pub(crate) const SUITE: &str = "suite.toml";

/// The path of a script that is too long.
pub(crate) const LONG: &str = "long.sh";

/// The host.
#[derive(Drop)]
pub(crate) struct SuiteHost<'s> {
    pub(crate) suite: &'s str,
    // The path for which it has no memory.
    pub(crate) refused: &'s str,
    // The reports of how far the grading is.
    pub(crate) steps: String,
}

// A copy of the bytes, if they are within the limit.
fn bounded(alloc: Global, bytes: &[u8], limit: usize) -> Result<Vec<u8>, HostFault>
    ensures { IfOk result (λ bytes. vec_len bytes ≤ limit) }
{
    if bytes.len() > limit {
        return Err(HostFault::TooLong);
    }
    match Vec::from_slice(alloc, bytes) {
        Ok(bytes) => Ok(bytes),
        Err(_) => Err(HostFault::Memory),
    }
}

impl Host for SuiteHost<'_> {
    ghost input = { λ _. None };

    ghost file = { λ _ _. None };

    fn read_input(&mut self, _alloc: Global, _limit: usize) -> Result<Vec<u8>, HostFault> {
        Err(HostFault::Unreadable)
    }

    fn read_path(&mut self, alloc: Global, path: &str, limit: usize) -> Result<Vec<u8>, HostFault> {
        if path == self.refused {
            return Err(HostFault::Memory);
        }
        if path == LONG {
            return Err(HostFault::TooLong);
        }
        let text = if path == SUITE {
            self.suite
        } else {
            "echo a\n"
        };
        bounded(alloc, text.as_bytes(), limit)
    }
}

impl Grading for SuiteHost<'_> {
    fn graded(&mut self, done: usize, of: usize) {
        let _ = write!(self.steps, "{done}/{of} ");
    }

    fn ended(&mut self) {}
}
