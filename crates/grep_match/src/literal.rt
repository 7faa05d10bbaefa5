//! Patterns of which a search for bytes decides.

ghost use Rattle.std.specs.Prelude.{◌≡◌, ◌≤◌, ◌++◌, length, take, drop, IfSome};
ghost use Rattle.grep_match.specs.Pattern.{items_of};
ghost use Rattle.grep_match.specs.Match.{can_fit_somewhere, matches};
ghost use Rattle.grep_match.specs.Literal.{is_literal, ones};

use crate::item::{Item, next_item, split_anchor};
use memchr::memchr;

// How many bytes at the beginning of the items are each an item that fits this byte alone.
fn literal_len(items: &[u8]) -> usize
    ensures within { result ≤ length items.now }
    ensures split { items_of items.now ≡ ones (take result items.now) ++ items_of (drop result items.now) }
    ensures literal { is_literal (take result items.now) }
{
    let mut left = items;
    let mut count = 0;
    while let Some((Item::One(byte), rest)) = next_item(left) {
        if byte == b'.' {
            break;
        }
        left = rest;
        count += 1;
    }
    count
}

// Whether literal bytes occur in the text: wherever it has the first, the others are looked for behind that.
fn occurs(literal: &[u8], text: &[u8]) -> bool
    requires { is_literal literal.now }
    ensures { result ≡ can_fit_somewhere (ones literal.now) text.now }
{
    let Some((&first, others)) = literal.split_first() else {
        return true;
    };
    let mut left = text;
    while let Some(place) = memchr(first, left) {
        let (_, later) = left.split_at(place + 1);
        if later.starts_with(others) {
            return true;
        }
        left = later;
    }
    false
}

// Whether the text matches, where a search for the literal beginning of the items decides it: a text that lacks this
// beginning does not match, and where it is all of the items any other text does. Else `None`.
pub fn is_match_by_literal(pattern: &[u8], text: &[u8]) -> Option<bool>
    ensures { IfSome result (λ answer. answer ≡ matches pattern.now text.now) }
{
    let (anchored, items) = split_anchor(pattern);
    if anchored {
        return None;
    }
    let (literal, rest) = items.split_at(literal_len(items));
    if !occurs(literal, text) {
        return Some(false);
    }
    if rest.is_empty() { Some(true) } else { None }
}
