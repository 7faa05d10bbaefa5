//! The name for which a word stands.

ghost use Rattle.std.specs.Prelude.{◌≡◌, ◌<◌, ◌≤◌, ℕ, IfSome, IfNone, get_or};
ghost use Rattle.step_commands.specs.declared.name.TheConstants.{NAMES};
ghost use Rattle.step_commands.specs.declared.name.Name.{Name};
ghost use Rattle.step_commands.specs.Commands.{IsAnother, IsBeginning, IsBegun, IsMeaning, word_of};

use crate::name::{NAMES, Name};

/// What a word stands for.
#[derive(Clone, Copy, Debug, PartialEq, Eq)]
pub(crate) enum Meant {
    /// This name.
    One(Name),
    /// One of several names, whose words begin so.
    Several,
    /// No name.
    Nothing,
}

// The name that has this other word too.
fn another(word: &[u8]) -> Option<Name>
    ensures some { IfSome result (λ name. IsAnother word.now name) }
    ensures none { IfNone result ((name : Name) → IsAnother word.now name → ⊥) }
{
    if word == b"undo".as_slice() {
        return Some(Name::Back);
    }
    if word == b"?".as_slice() {
        return Some(Name::Help);
    }
    if word == b"exit".as_slice() {
        return Some(Name::Quit);
    }
    None
}

// The place of the first name, from this place on, whose word begins so.
fn begun_from(word: &[u8], from: usize) -> Option<usize>
    ensures within { IfSome result (λ place. (from ≤ place) × (place < 15)) }
    ensures begun { IfSome result (λ place. IsBeginning word.now (word_of (get_or NAMES place Name.Go))) }
    ensures first { IfSome result (λ place. (k : ℕ) → from ≤ k → k < place → IsBeginning word.now (word_of (get_or NAMES k Name.Go)) → ⊥) }
    ensures none { IfNone result ((k : ℕ) → from ≤ k → k < 15 → IsBeginning word.now (word_of (get_or NAMES k Name.Go)) → ⊥) }
{
    for place in from..NAMES.len() {
        if NAMES[place].begins_with(word) {
            return Some(place);
        }
    }
    None
}

// What the word stands for, as a beginning, where this is the place of the first name whose word begins so.
fn begun_at(word: &[u8], place: usize) -> Meant
    requires within { place < 15 }
    requires begun { IsBeginning word.now (word_of (get_or NAMES place Name.Go)) }
    requires first { (k : ℕ) → 0 ≤ k → k < place → IsBeginning word.now (word_of (get_or NAMES k Name.Go)) → ⊥ }
    ensures { IsBegun word.now result }
{
    match begun_from(word, place + 1) {
        Some(_) => Meant::Several,
        None => Meant::One(NAMES[place]),
    }
}

// What the word stands for, as a beginning.
fn begun(word: &[u8]) -> Meant
    ensures { IsBegun word.now result }
{
    match begun_from(word, 0) {
        Some(place) => begun_at(word, place),
        None => Meant::Nothing,
    }
}

// What the word stands for.
pub(crate) fn meaning_of(word: &[u8]) -> Meant
    ensures { IsMeaning word.now result }
{
    match another(word) {
        Some(name) => Meant::One(name),
        None => begun(word),
    }
}
