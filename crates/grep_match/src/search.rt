//! Matching as `user/grep.c` does, by trying cut after cut.

ghost use Rattle.std.specs.Prelude.{◌≡◌, ◌∷◌};
ghost use Rattle.grep_match.specs.Pattern.{items_of};
ghost use Rattle.grep_match.specs.Match.{can_fit, can_fit_somewhere, matches};

use crate::item::{Item, next_item, split_anchor, stands_for};

// Whether the items can fit from the text's beginning on: cut after cut is tried (user/grep.c's `matchhere`).
#[cycle(search)]
fn fits(items: &[u8], text: &[u8]) -> bool
    ensures { result ≡ can_fit (items_of items.now) text.now }
{
    let mut left = items;
    let mut unread = text;
    while let Some((item, rest)) = next_item(left) {
        match item {
            Item::One(byte) => match unread.split_first() {
                Some((&other, later)) if stands_for(byte, other) => unread = later,
                _ => return false,
            },
            Item::Star(byte) => return fits_star(byte, rest, unread),
            Item::End if unread.is_empty() => {}
            Item::End => return false,
        }
        left = rest;
    }
    true
}

// Whether bytes that `byte` stands for can fit, and then the items (user/grep.c's `matchstar`).
#[cycle(search)]
fn fits_star(byte: u8, items: &[u8], text: &[u8]) -> bool
    ensures { result ≡ can_fit (Item.Star byte ∷ items_of items.now) text.now }
{
    let mut unread = text;
    while !fits(items, unread) {
        match unread.split_first() {
            Some((&other, later)) if stands_for(byte, other) => unread = later,
            _ => return false,
        }
    }
    true
}

// Whether the items can fit from some place of the text on.
fn fits_somewhere(items: &[u8], text: &[u8]) -> bool
    ensures { result ≡ can_fit_somewhere (items_of items.now) text.now }
{
    let mut unread = text;
    while !fits(items, unread) {
        let Some((_, later)) = unread.split_first() else {
            return false;
        };
        unread = later;
    }
    true
}

// Whether the text matches, found by trying cuts, which may take exponential time.
pub fn is_match_by_cuts(pattern: &[u8], text: &[u8]) -> bool
    ensures { result ≡ matches pattern.now text.now }
{
    let (anchored, items) = split_anchor(pattern);
    if anchored {
        fits(items, text)
    } else {
        fits_somewhere(items, text)
    }
}
