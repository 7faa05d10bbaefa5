//! What is reported of lines that are no command.
ghost use Rattle.std.specs.Prelude.{◌≡◌, ◌++◌, IfOk, OnOk, map, string_bytes};
ghost use Rattle.dead_lines.specs.Hints.{hint_of, hints_of, more_of, more_text};

use std::alloc::{AllocError, Global};

// How many lines are reported one by one.
const MOST_HINTS: usize = 10;

// The sentence of a line.
fn hint_of(alloc: Global, line: usize) -> Result<String, AllocError>
    ensures { IfOk result (λ hint. string_bytes hint ≡ hint_of line) }
{
    format!(in alloc; "line {line} is no command and did nothing: see xvsh explain")
}

// The sentence of so many lines more.
fn more_text(alloc: Global, count: usize) -> Result<String, AllocError>
    ensures { IfOk result (λ more. string_bytes more ≡ more_text count) }
{
    if count == 1 {
        return String::from_str(alloc, "and 1 more line is no command");
    }
    format!(in alloc; "and {count} more lines are no command")
}

// Adds the sentence of so many lines more, if there are any.
fn add_more(alloc: Global, count: usize, hints: &mut Vec<String>) -> Result<(), AllocError>
    ensures { OnOk result (map string_bytes hints.new.items ≡ map string_bytes hints.old.items ++ more_of count) }
{
    if count != 0 {
        hints.push(more_text(alloc, count)?)?;
    }
    Ok(())
}

// Adds the sentence of each of these lines.
fn add_hints(alloc: Global, numbers: &[usize], hints: &mut Vec<String>) -> Result<(), AllocError>
    ensures { OnOk result (map string_bytes hints.new.items ≡ map string_bytes hints.old.items ++ map hint_of numbers.now) }
{
    let mut rest = numbers;
    while let Some((number, after)) = rest.split_first() {
        hints.push(hint_of(alloc, *number)?)?;
        rest = after;
    }
    Ok(())
}

/// What is reported of lines of these numbers, which are no command (own): a sentence for each, of more than ten the first ten and then how
/// many more there are. The error is that memory was refused.
pub fn hints_of(alloc: Global, numbers: &[usize]) -> Result<Vec<String>, AllocError>
    ensures { IfOk result (λ hints. map string_bytes hints.items ≡ hints_of numbers.now) }
{
    let (listed, unlisted) = numbers.split_at(numbers.len().min(MOST_HINTS));
    let mut hints = Vec::new(alloc);
    add_hints(alloc, listed, &mut hints)?;
    add_more(alloc, unlisted.len(), &mut hints)?;
    Ok(hints)
}
