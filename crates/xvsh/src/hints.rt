//! What whoever sits at a terminal is shown of lines that name no program.

use std::alloc::{AllocError, Global};

// How many lines are reported one by one.
const MOST_HINTS: usize = 10;

// The sentence of a line.
fn hint_of(alloc: Global, line: usize) -> Result<String, AllocError> {
    format!(in alloc; "line {line} names a program that isn't here: see xvsh explain")
}

// The sentence of so many lines more.
fn more_text(alloc: Global, count: usize) -> Result<String, AllocError> {
    if count == 1 {
        return String::from_str(alloc, "and 1 more line names a program that isn't here");
    }
    format!(in alloc; "and {count} more lines name a program that isn't here")
}

// The lines that are no command or name no program, but for those that are no command. Both are in order.
fn without(alloc: Global, dead: &[usize], bad: &[usize]) -> Result<Vec<usize>, AllocError> {
    let mut rest = bad;
    let mut named = Vec::new(alloc);
    for line in dead {
        match rest.split_first() {
            Some((first, after)) if first == line => rest = after,
            _ => named.push(*line)?,
        }
    }
    Ok(named)
}

/// The sentences of the lines of a script that are commands and name no program, by the numbers of those that are no command or name no
/// program, and of those that are no command: of more than ten the first ten, and then how many more there are (own). The error is that
/// memory was refused.
pub(crate) fn name_hints_of(
    alloc: Global,
    dead: &[usize],
    bad: &[usize],
) -> Result<Vec<String>, AllocError> {
    let named = without(alloc, dead, bad)?;
    let (listed, unlisted) = named.split_at(named.len().min(MOST_HINTS));
    let mut hints = Vec::new(alloc);
    for line in listed {
        hints.push(hint_of(alloc, *line)?)?;
    }
    if !unlisted.is_empty() {
        hints.push(more_text(alloc, unlisted.len())?)?;
    }
    Ok(hints)
}
