//! The lines of `grep` (`user/grep.c`).
ghost use Rattle.std.specs.Prelude.{◌≡◌, ◌==◌, ◌++◌, ◌∷◌, IfSome, IfNone};
ghost use Rattle.std.specs.List.{list_any};
ghost use Rattle.prog_parts.specs.Lines.{HasNoLf};
ghost use Rattle.prog_parts.specs.Grep.{is_whole as whole};

use memchr::memchr;

/// The most bytes that `grep` holds of a line with its LF: 1,023, one less than the buffer of
/// `user/grep.c` has.
pub const BUFFER: usize = 1023;

fn has_zero(line: &[u8]) -> bool
    ensures { result ≡ list_any (λ byte. byte == 0) line.now }
{
    memchr(0, line).is_some()
}

/// Whether `grep` tests a line, given without its LF: the buffer holds it with its LF, and it has no
/// byte 0 (`user/grep.c`).
pub fn is_whole(line: &[u8]) -> bool
    ensures { result ≡ whole line.now }
{
    line.len() < BUFFER && !has_zero(line)
}

/// The first line that ends in LF, without it, and what follows the LF; `None` where there is no LF
/// (the search of `user/grep.c` in its buffer).
pub fn split_line(bytes: &[u8]) -> Option<(&[u8], &[u8])>
    ensures none { IfNone result (HasNoLf bytes.now) }
    ensures line { IfSome result (λ cut. HasNoLf cut.0.now) }
    ensures some { IfSome result (λ cut. bytes.now ≡ cut.0.now ++ 10 ∷ cut.1.now) }
{
    let end = memchr(b'\n', bytes)?;
    Some((&bytes[..end], &bytes[end + 1..]))
}
