//! Matching by marks on the places of a text.

ghost use Rattle.std.specs.Prelude.{◌≡◌, ◌+◌, ◌<◌, length, false};
ghost use Rattle.grep_match.specs.Pattern.{items_of};
ghost use Rattle.grep_match.specs.Match.{matches};
ghost use Rattle.grep_match.specs.Places.{leads, before_byte, behind_bytes};

use crate::item::{Item, next_item, split_anchor, stands_for};

// Keeps the marks before bytes that `byte` stands for. No mark moves: it is the text that loses its first byte then,
// so that each kept mark is behind its byte.
fn pass_one(marks: &mut [bool], byte: u8, text: &[u8])
    requires { length text.now < length marks.old }
    ensures { marks.new ≡ before_byte byte marks.old text.now }
{
    for (place, &other) in text.iter().enumerate() {
        marks[place] &= stands_for(byte, other);
    }
}

// Adds marks behind any number of bytes that `byte` stands for.
fn pass_star(marks: &mut [bool], byte: u8, text: &[u8])
    requires { length text.now < length marks.old }
    ensures { marks.new ≡ behind_bytes byte false marks.old text.now }
{
    let mut carried = false;
    for (place, &other) in text.iter().enumerate() {
        let here = marks[place] || carried;
        marks[place] = here;
        carried = here && stands_for(byte, other);
    }
    if carried {
        marks[text.len()] = true;
    }
}

// Whether the items can fit from some marked place on.
fn walk(marks: &mut [bool], items: &[u8], text: &[u8]) -> bool
    requires { length text.now < length marks.old }
    ensures { result ≡ leads marks.old (items_of items.now) text.now }
{
    let mut left = items;
    let mut unread = text;
    while let Some((item, rest)) = next_item(left) {
        match item {
            Item::One(byte) => {
                let Some((_, later)) = unread.split_first() else {
                    return false;
                };
                pass_one(marks, byte, unread);
                unread = later;
            }
            Item::Star(byte) => pass_star(marks, byte, unread),
            Item::End => return marks[unread.len()],
        }
        left = rest;
    }
    marks[..=unread.len()].contains(&true)
}

// Whether the text matches, found by marks on its places.
pub fn is_match_by_marks(marks: &mut [bool], pattern: &[u8], text: &[u8]) -> bool
    requires { length marks.old ≡ length text.now + 1 }
    ensures { result ≡ matches pattern.now text.now }
{
    let (anchored, items) = split_anchor(pattern);
    marks.fill(!anchored);
    marks[0] = true;
    walk(marks, items, text)
}
