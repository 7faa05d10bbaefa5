//! Matching by the states of a pattern.

ghost use Rattle.std.specs.Prelude.{◌≡◌, ◌<◌, length, false};
ghost use Rattle.grep_match.specs.Pattern.{items_of};
ghost use Rattle.grep_match.specs.Match.{matches};
ghost use Rattle.grep_match.specs.States.{comes_through, moved, stands_next};

use crate::item::{Item, next_item, split_anchor, stands_for};

// Whether there is a next byte of the text and the pattern's byte stands for it.
fn stands_next(byte: u8, next: Option<u8>) -> bool
    ensures { result ≡ stands_next byte next }
{
    match next {
        Some(other) => stands_for(byte, other),
        None => false,
    }
}

// Moves the states behind the next byte of the text, and returns whether the last one was reached before it.
fn step(states: &mut [bool], starts: bool, items: &[u8], next: Option<u8>) -> bool
    requires { length items.now < length states.old }
    ensures through { result ≡ comes_through next starts states.old (items_of items.now) }
    ensures moved { states.new ≡ moved next starts false states.old (items_of items.now) }
{
    let mut left = items;
    let mut state = 0;
    let mut reached = starts;
    let mut arrived = false;
    while let Some((item, rest)) = next_item(left) {
        let here = states[state] || reached;
        match item {
            Item::One(byte) => {
                states[state] = arrived;
                reached = false;
                arrived = here && stands_next(byte, next);
            }
            Item::Star(byte) => {
                states[state] = arrived || here && stands_next(byte, next);
                reached = here;
                arrived = false;
            }
            Item::End => {
                states[state] = arrived;
                reached = here && next.is_none();
                arrived = false;
            }
        }
        left = rest;
        state += 1;
    }
    let through = states[state] || reached;
    states[state] = arrived;
    through
}

// Whether the text matches, found by states of the pattern.
pub fn is_match_by_states(states: &mut [bool], pattern: &[u8], text: &[u8]) -> bool
    requires { length pattern.now < length states.old }
    ensures { result ≡ matches pattern.now text.now }
{
    let (anchored, items) = split_anchor(pattern);
    states.fill(false);
    states[0] = anchored;
    for &other in text {
        if step(states, !anchored, items, Some(other)) {
            return true;
        }
    }
    step(states, !anchored, items, None)
}
