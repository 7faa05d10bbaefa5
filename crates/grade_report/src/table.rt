//! The report for people.

use crate::rows::{Row, Sum, script_end, scripts_of, sum_of};
use crate::sentences::{sentence_beside, word_of};
use script_notes::NoteKind;
use shown::add_name;
use std::alloc::{AllocError, Global};

const GREEN: &str = "\x1b[32m";

const RED: &str = "\x1b[31m";

const PLAIN: &str = "\x1b[0m";

// How wide the column of verdicts is: as the longest of them.
const WIDTH: usize = 23;

fn add(text: &mut Vec<u8>, words: &str) -> Result<(), AllocError> {
    text.extend_from_slice(words.as_bytes())
}

// Adds the verdict, in colour if it is to be, and spaces behind it.
fn add_word(text: &mut Vec<u8>, row: &Row<'_>, is_coloured: bool) -> Result<(), AllocError> {
    let word = word_of(row.verdict);
    if is_coloured {
        add(text, if row.is_passed() { GREEN } else { RED })?;
    }
    add(text, word)?;
    if is_coloured {
        add(text, PLAIN)?;
    }
    for _ in 0..WIDTH.saturating_sub(word.len()) {
        text.push(b' ')?;
    }
    Ok(())
}

// Adds the line of a test, and a line why it isn't passed.
fn add_row(
    alloc: Global,
    text: &mut Vec<u8>,
    row: &Row<'_>,
    is_coloured: bool,
    printed: &mut Vec<NoteKind>,
) -> Result<(), AllocError> {
    add(text, "  ")?;
    add_word(text, row, is_coloured)?;
    let points = format!(in alloc; "  {}/{}", row.earned(), row.points)?;
    add(text, points.as_str())?;
    for _ in 0..9usize.saturating_sub(points.len()) {
        text.push(b' ')?;
    }
    add(text, "  ")?;
    add_name(text, row.test)?;
    add(text, "\n")?;
    let sentence = sentence_beside(alloc, row.verdict, printed)?;
    if !sentence.is_empty() {
        add(text, "      ")?;
        text.extend_from_slice(sentence.as_slice())?;
        add(text, "\n")?;
    }
    Ok(())
}

// Adds `3 of 5 tests passed, 7 of 9 points`.
fn add_sum(alloc: Global, text: &mut Vec<u8>, sum: Sum) -> Result<(), AllocError> {
    let Sum {
        points,
        of,
        passed,
        tests,
        ..
    } = sum;
    let line = format!(in alloc; "{passed} of {tests} tests passed, {points} of {of} points\n")?;
    add(text, line.as_str())
}

// Adds the rows of a script under its line.
fn add_script(
    alloc: Global,
    text: &mut Vec<u8>,
    rows: &[Row<'_>],
    is_coloured: bool,
    printed: &mut Vec<NoteKind>,
) -> Result<(), AllocError> {
    match rows.first() {
        Some(
            Row {
                script: Some(script),
                ..
            },
        ) => add_name(text, script)?,
        _ => add(text, "scripts of the suite")?,
    }
    add(text, ": ")?;
    add_sum(alloc, text, sum_of(rows))?;
    for row in rows {
        add_row(alloc, text, row, is_coloured, printed)?;
    }
    Ok(())
}

/// The report as a text (own): a line for each script, a line for each test below it, with its verdict and points, and a line why
/// a test isn't passed, of a line that is no command in full where its reason comes first in the report; of several scripts a last line with the sum. Names have escapes for what isn't printable.
///
/// `AllocError` where memory is refused.
pub fn table_text(
    alloc: Global,
    rows: &[Row<'_>],
    is_coloured: bool,
) -> Result<Vec<u8>, AllocError> {
    let mut text = Vec::new(alloc);
    let mut printed = Vec::new(alloc);
    let mut from = 0;
    for _ in 0..rows.len() {
        if from >= rows.len() {
            break;
        }
        let end = script_end(rows, from);
        let own = rows.get(from..end).unwrap_or(&[]);
        add_script(alloc, &mut text, own, is_coloured, &mut printed)?;
        from = end;
    }
    let scripts = scripts_of(rows);
    if scripts > 1 {
        let begin = format!(in alloc; "{scripts} scripts: ")?;
        add(&mut text, begin.as_str())?;
        add_sum(alloc, &mut text, sum_of(rows))?;
    }
    Ok(text)
}
