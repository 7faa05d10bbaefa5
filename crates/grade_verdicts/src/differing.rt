//! How what a run left differs from what is expected.

ghost use Rattle.std.specs.Prelude.{◌≡◌, ◌↔◌, None, IfOk};
ghost use Rattle.mem_files.specs.Files.{files};
ghost use Rattle.grade_verdicts.specs.Agrees.{Agrees};

use crate::agreeing::agrees;
use crate::expected::Expected;
use crate::verdict::{Difference, Place};
use mem_files::Files;
use prog_parts::split_line;
use std::alloc::{AllocError, Allocator, Global};

// The first line with its LF, if there is one, and what follows it; `None` of no bytes.
fn first_line(text: &[u8]) -> Option<(&[u8], &[u8])> {
    match split_line(text) {
        Some((line, rest)) => {
            let long = line.len().saturating_add(1).min(text.len());
            Some((&text[..long], rest))
        }
        None if text.is_empty() => None,
        None => Some((text, &[])),
    }
}

// How many bytes of a line are shown, and of these at most so many before the first that differs.
const SHOWN: usize = 400;

const BEFORE: usize = 100;

// What is shown of the first line from a byte on.
fn shown(alloc: Global, text: &[u8], from: usize) -> Result<Option<Vec<u8>>, AllocError> {
    let Some((line, _)) = first_line(text) else {
        return Ok(None);
    };
    let rest = line.get(from..).unwrap_or(&[]);
    Ok(Some(Vec::from_slice(alloc, &rest[..rest.len().min(SHOWN)])?))
}

// How many bytes both begin with alike.
fn alike(one: &[u8], other: &[u8]) -> usize {
    let pairs = one.iter().zip(other);
    pairs.take_while(|(byte, there)| byte == there).count()
}

// What follows the lines with which both begin alike, and how many these are.
fn after_lines<'t>(one: &'t [u8], other: &'t [u8]) -> (&'t [u8], &'t [u8], usize) {
    let mut count: usize = 0;
    let (mut wanted, mut there) = (one, other);
    for _ in 0..one.len() {
        let (Some(line), Some(found)) = (first_line(wanted), first_line(there)) else {
            break;
        };
        if line.0 != found.0 {
            break;
        }
        count = count.saturating_add(1);
        (wanted, there) = (line.1, found.1);
    }
    (wanted, there, count)
}

// How the two texts differ.
fn texts_differ(
    alloc: Global,
    place: Place,
    expected: &[u8],
    found: &[u8],
) -> Result<Difference, AllocError> {
    let (wanted, there, count) = after_lines(expected, found);
    let byte = alike(wanted, there);
    let from = if byte < SHOWN { 0 } else { byte - BEFORE };
    Ok(Difference {
        place,
        line: count.saturating_add(1),
        byte,
        from,
        expected: shown(alloc, wanted, from)?,
        found: shown(alloc, there, from)?,
    })
}

// How the files differ from those that are expected, if they do.
fn files_differ<C: Allocator>(
    alloc: Global,
    expected: &Expected,
    store: &Files<C>,
) -> Result<Option<Difference>, AllocError> {
    for file in expected.files.as_slice() {
        let wanted = file.bytes.as_slice();
        let name = Vec::from_slice(alloc, file.name.as_slice())?;
        match store.get(file.name.as_slice()) {
            Some(bytes) if bytes == wanted => {}
            Some(bytes) => {
                return Ok(Some(texts_differ(alloc, Place::File(name), wanted, bytes)?));
            }
            None => {
                return Ok(Some(texts_differ(alloc, Place::NoFile(name), wanted, &[])?));
            }
        }
    }
    Ok(None)
}

/// How the output differs or, where it doesn't, the files.
pub fn difference_of<C: Allocator>(
    alloc: Global,
    expected: &Expected,
    out: &[u8],
    store: &Files<C>,
) -> Result<Difference, AllocError> {
    if out == expected.out.as_slice() {
        if let Some(difference) = files_differ(alloc, expected, store)? {
            return Ok(difference);
        }
    }
    texts_differ(alloc, Place::Output, expected.out.as_slice(), out)
}

/// How this output and these files differ from what is expected, at the first line that does (own): of the output, or where
/// that is as expected of the first file that isn't. `None` exactly where all is as expected.
pub fn first_difference<C: Allocator>(
    alloc: Global,
    expected: &Expected,
    out: &[u8],
    store: &Files<C>,
) -> Result<Option<Difference>, AllocError>
    ensures { IfOk result (λ difference. (difference ≡ None) ↔ Agrees expected.now out.now (files store.now)) }
{
    if agrees(expected, out, store) {
        return Ok(None);
    }
    let difference = difference_of(alloc, expected, out, store)?;
    Ok(Some(difference))
}
