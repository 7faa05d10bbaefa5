//! Whether a text matches a pattern, by whichever of the ways costs least.

ghost use Rattle.std.specs.Prelude.{◌≡◌, ◌↔◌, ◌<◌, length, IsTrue};
ghost use Rattle.grep_match.specs.Match.{IsMatch, matches};

use crate::literal::is_match_by_literal;
use crate::marks::is_match_by_marks;
use crate::search::is_match_by_cuts;
use crate::states::is_match_by_states;

// How many marks or states stand on the stack. A line that grep tests, and a pattern of a script, are shorter.
const ROOM: usize = 1024;

// By marks, in a function of its own, so that only a call that takes marks clears them.
#[inline(never)]
fn is_match_in_marks(pattern: &[u8], text: &[u8]) -> bool
    requires { length text.now < ROOM }
    ensures { result ≡ matches pattern.now text.now }
{
    let mut marks = [false; ROOM];
    is_match_by_marks(&mut marks[..=text.len()], pattern, text)
}

// By states, likewise.
#[inline(never)]
fn is_match_in_states(pattern: &[u8], text: &[u8]) -> bool
    requires { length pattern.now < ROOM }
    ensures { result ≡ matches pattern.now text.now }
{
    let mut states = [false; ROOM];
    is_match_by_states(&mut states, pattern, text)
}

/// Whether a text matches a pattern (`user/grep.c`'s `match`).
///
/// A pattern that begins with `^` is anchored; its items are the rest's. Any other pattern is all items. They are
/// split from the left: a byte that `*` follows is one item with it, which any number of such bytes fit; `$`, as
/// the last byte alone, is fitted by nothing at the text's end; each other byte is fitted by one such byte. `.`
/// stands for every byte, each other byte for itself: so does a `^` behind the first byte, a `*` that begins the
/// items or follows a `*` of an item, and a `$` with something behind it.
///
/// A text matches if some part of it is a row of pieces, one for each item in order; the part of an anchored
/// pattern begins where the text does. Patterns and texts may have any bytes and any length, and no memory is taken.
///
/// Without an anchor, the text is first searched for the bytes before the first special one: a text that lacks them
/// does not match, and one that has them does where they are the whole pattern.
///
/// Where the pattern or the text has fewer than 1,024 bytes, the time is at most proportional to the product of their
/// lengths, where `user/grep.c`'s recursion takes exponential time on many stars. Where both are longer this recurses
/// as `user/grep.c` does: it may take as long, and its stack grows with the number of stars.
pub fn is_match(pattern: &[u8], text: &[u8]) -> bool
    ensures pieces { IsTrue result ↔ IsMatch pattern.now text.now }
    ensures test { result ≡ matches pattern.now text.now }
{
    if let Some(answer) = is_match_by_literal(pattern, text) {
        return answer;
    }
    if text.len() < ROOM {
        is_match_in_marks(pattern, text)
    } else if pattern.len() < ROOM {
        is_match_in_states(pattern, text)
    } else {
        is_match_by_cuts(pattern, text)
    }
}
