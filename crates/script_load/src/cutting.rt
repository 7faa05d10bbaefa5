//! The lines of a script's bytes.

ghost use Rattle.std.specs.Prelude.{◌≡◌, [], IfNone, IfSome};
ghost use Rattle.prog_parts.specs.Lines.{IsFirstLine};

use memchr::memchr;

// The first line without its LF, and the bytes after it.
pub fn next_line(bytes: &[u8]) -> Option<(&[u8], &[u8])>
    ensures none { IfNone result (bytes.now ≡ []) }
    ensures some { IfSome result (λ p. IsFirstLine bytes.now p.0.now p.1.now) }
{
    if bytes.is_empty() {
        return None;
    }
    match memchr(b'\n', bytes) {
        Some(end) => Some((&bytes[..end], &bytes[end + 1..])),
        None => Some((bytes, &[])),
    }
}
