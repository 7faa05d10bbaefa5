//! All bytes of a reader, within a limit.

ghost use Rattle.std.specs.Prelude.{◌≡◌, ◌<◌, ◌≤◌, IfOk, IfSome, length, vec_len};

use crate::HostFault;
use std::alloc::Allocator;
use std::io::Read;

// How many bytes are asked for at once.
const CHUNK_SIZE: usize = 16_384;

/// All bytes that a reader gives, of which there may be as many as `limit`. The reader is asked at most `limit` + 1 times,
/// and for no more than one byte past the limit. Own.
///
/// `Unreadable` where a read fails, an interrupted one too, `TooLong` where the reader gives more, and `Memory` where there
/// is no room for the bytes, whichever comes first.
pub fn read_all<A: Allocator, R: Read + Drop>(
    alloc: A,
    mut reader: R,
    limit: usize,
) -> Result<Vec<u8, A>, HostFault>
    ensures whole { IfOk result (λ bytes. IfSome (R.remaining reader) (λ told. bytes.items ≡ told)) }
    ensures within { IfOk result (λ bytes. vec_len bytes ≤ limit) }
    ensures too_long { result ≡ Err HostFault.TooLong → IfSome (R.remaining reader) (λ told. limit < length told) }
{
    let mut bytes = Vec::new(alloc);
    let mut chunk = [0; CHUNK_SIZE];
    loop {
        let room = limit - bytes.len();
        let asked = chunk.len().min(room.saturating_add(1));
        let Ok(count) = reader.read(&mut chunk[..asked]) else {
            return Err(HostFault::Unreadable);
        };
        if count == 0 {
            return Ok(bytes);
        }
        if count > room {
            return Err(HostFault::TooLong);
        }
        if bytes.extend_from_slice(&chunk[..count]).is_err() {
            return Err(HostFault::Memory);
        }
    }
}
