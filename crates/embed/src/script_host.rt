//! The program's host, where a script is all that it reads.
ghost use Rattle.std.specs.Prelude.{◌≡◌, ◌≢◌, ◌<◌, ◌≤◌, Err, IfOk, length, vec_len};

use std::alloc::Global;
use xvsh_read::{Host, HostFault};

/// A host that gives a script as its standard input, and has no file.
#[derive(Drop)]
pub(crate) struct ScriptHost<'a> {
    pub(crate) script: &'a [u8],
}

/// A copy of bytes, of which there may be as many as the limit.
pub(crate) fn copied(alloc: Global, bytes: &[u8], limit: usize) -> Result<Vec<u8>, HostFault>
    ensures whole { IfOk result (λ copy. copy.items ≡ bytes.now) }
    ensures within { IfOk result (λ copy. vec_len copy ≤ limit) }
    ensures too_long { result ≡ Err HostFault.TooLong → limit < length bytes.now }
    ensures readable { result ≢ Err HostFault.Unreadable }
{
    if bytes.len() > limit {
        return Err(HostFault::TooLong);
    }
    match Vec::from_slice(alloc, bytes) {
        Ok(copy) => Ok(copy),
        Err(_) => Err(HostFault::Memory),
    }
}

impl Host for ScriptHost<'_> {
    ghost use Rattle.std.specs.Prelude.{None, Some};

    ghost input = { λ host. Some host.script.now };

    ghost file = { λ _ _. None };

    fn read_input(&mut self, alloc: Global, limit: usize) -> Result<Vec<u8>, HostFault> {
        copied(alloc, self.script, limit)
    }

    fn read_path(
        &mut self,
        _alloc: Global,
        _path: &str,
        _limit: usize,
    ) -> Result<Vec<u8>, HostFault> {
        Err(HostFault::Unreadable)
    }
}
