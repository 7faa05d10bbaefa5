//! How a line is shown, and the marks under it.
ghost use Rattle.std.specs.Prelude.{◌≡◌, ◌++◌, IfOk, OnOk, flat_map, replicate, slice_range};
ghost use Rattle.note_texts.specs.Marks.{blank_of, blanks, columns_of, letters, mark, mark_of, marks, shown};

use script_notes::Span;
use std::alloc::{AllocError, Global};
use unicode_width::UnicodeWidthChar;

// How many columns a character takes: one where it controls.
fn columns_of(letter: char) -> usize
    ensures { result ≡ columns_of letter }
{
    letter.width().unwrap_or(1)
}

/// Adds a line as it is shown.
pub fn add_shown(alloc: Global, line: &[u8], text: &mut Vec<u8>) -> Result<(), AllocError>
    ensures { OnOk result (text.new.items ≡ text.old.items ++ shown line.now) }
{
    let bytes: Vec<u8> = line
        .iter()
        .copied()
        .filter(|byte| *byte != b'\r')
        .collect(alloc)?;
    text.extend_from_slice(bytes.as_slice())
}

// The characters that bytes are shown as.
fn letters_of(alloc: Global, bytes: &[u8]) -> Result<Vec<char>, AllocError>
    ensures { IfOk result (λ found. found.items ≡ letters bytes.now) }
{
    let mut line = Vec::new(alloc);
    add_shown(alloc, bytes, &mut line)?;
    let text = String::from_utf8_lossy(alloc, line.as_slice())?;
    text.chars().collect(alloc)
}

// Adds a byte so many times.
fn add_copies(count: usize, byte: u8, text: &mut Vec<u8>) -> Result<(), AllocError>
    ensures { OnOk result (text.new.items ≡ text.old.items ++ replicate count byte) }
{
    for _copy in 0..count {
        text.push(byte)?;
    }
    Ok(())
}

// Adds what stands under a character that is not marked.
fn add_blank(letter: char, text: &mut Vec<u8>) -> Result<(), AllocError>
    ensures { OnOk result (text.new.items ≡ text.old.items ++ blank_of letter) }
{
    if letter == '\t' {
        text.push(b'\t')?;
        return Ok(());
    }
    add_copies(columns_of(letter), b' ', text)
}

// Adds what stands under bytes that are not marked.
fn add_blanks(alloc: Global, bytes: &[u8], text: &mut Vec<u8>) -> Result<(), AllocError>
    ensures { OnOk result (text.new.items ≡ text.old.items ++ blanks bytes.now) }
{
    let letters = letters_of(alloc, bytes)?;
    for letter in &letters {
        add_blank(*letter, text)?;
    }
    Ok(())
}

// The marks in each column of bytes.
fn marks_of(alloc: Global, bytes: &[u8]) -> Result<Vec<u8>, AllocError>
    ensures { IfOk result (λ under. under.items ≡ flat_map mark_of (letters bytes.now)) }
{
    let letters = letters_of(alloc, bytes)?;
    let mut under = Vec::new(alloc);
    for letter in &letters {
        add_copies(columns_of(*letter), b'^', &mut under)?;
    }
    Ok(under)
}

// Adds the marks under bytes: one at least.
fn add_mark(alloc: Global, bytes: &[u8], text: &mut Vec<u8>) -> Result<(), AllocError>
    ensures { OnOk result (text.new.items ≡ text.old.items ++ mark bytes.now) }
{
    let under = marks_of(alloc, bytes)?;
    if under.is_empty() {
        text.push(b'^')?;
        return Ok(());
    }
    text.extend_from_slice(under.as_slice())
}

// The bytes of a line from one up to and without another, as far as there are any.
fn part_of(line: &[u8], first: usize, past: usize) -> &[u8]
    ensures { result.now ≡ slice_range line.now first past }
{
    let (_, rest) = line.split_at(first.min(line.len()));
    let (part, _) = rest.split_at(past.saturating_sub(first).min(rest.len()));
    part
}

/// Adds the marks under these places of a line, up to the last of them.
pub fn add_marks(
    alloc: Global,
    line: &[u8],
    spans: &[Span],
    text: &mut Vec<u8>,
) -> Result<(), AllocError>
    ensures { OnOk result (text.new.items ≡ text.old.items ++ marks line.now 0 spans.now) }
{
    let mut from = 0;
    let mut rest = spans;
    while let Some((span, after)) = rest.split_first() {
        add_blanks(alloc, part_of(line, from, span.first), text)?;
        add_mark(alloc, part_of(line, span.first, span.past), text)?;
        from = span.past;
        rest = after;
    }
    Ok(())
}
