//! The name that a word was meant as.

use crate::name::{NAMES, Name};
use std::alloc::{AllocError, Global};
use std::str;
use strsim::osa_distance;

// How many letters may be wrong.
const MOST_WRONG: usize = 2;

// The most bytes of a word that was meant as a name.
const LONGEST: usize = 12;

// Words for a command that others have, such as debuggers.
const OTHERS: [(&str, Name); 4] = [
    ("end", Name::Quit),
    ("run", Name::Until),
    ("continue", Name::Until),
    ("ls", Name::Files),
];

// The name that others have this word for.
fn other(word: &[u8]) -> Option<Name> {
    for (known, name) in OTHERS {
        if known.as_bytes() == word {
            return Some(name);
        }
    }
    None
}

// The first of the names to which the fewest changes of a letter lead, at most two, and fewer than the name has letters.
fn like(alloc: Global, word: &[u8]) -> Result<Option<Name>, AllocError> {
    if word.len() > LONGEST {
        return Ok(None);
    }
    let Ok(word) = str::from_utf8(word) else {
        return Ok(None);
    };
    let mut best = None;
    let mut fewest = MOST_WRONG + 1;
    for name in NAMES {
        let wrong = osa_distance(alloc, word, name.word())?;
        if wrong < fewest && wrong < name.word().len() {
            fewest = wrong;
            best = Some(name);
        }
    }
    Ok(best)
}

/// The name that the word, which stands for none, was most likely meant as, if it is like one (own): that of what others call so, such as
/// `continue`; else the first of those to which the fewest changes of a letter lead, at most two, and fewer than the name has letters. The
/// error is that memory was refused.
pub fn nearest(alloc: Global, word: &[u8]) -> Result<Option<Name>, AllocError> {
    match other(word) {
        Some(name) => Ok(Some(name)),
        None => like(alloc, word),
    }
}
