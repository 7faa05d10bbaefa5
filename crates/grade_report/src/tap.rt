//! The report as TAP, the Test Anything Protocol, version 13.

use crate::rows::Row;
use crate::sentences::{sentence_of, word_of};
use shown::add_name;
use std::alloc::{AllocError, Global};

fn add(text: &mut Vec<u8>, words: &str) -> Result<(), AllocError> {
    text.extend_from_slice(words.as_bytes())
}

// Adds a name in which `#` begins no directive.
fn add_description(alloc: Global, text: &mut Vec<u8>, name: &str) -> Result<(), AllocError> {
    let mut escaped = Vec::new(alloc);
    add_name(&mut escaped, name)?;
    for byte in &escaped {
        if *byte == b'#' {
            text.push(b'\\')?;
        }
        text.push(*byte)?;
    }
    Ok(())
}

// Adds a text of YAML between single quotes.
fn add_quoted(text: &mut Vec<u8>, sentence: &[u8]) -> Result<(), AllocError> {
    text.push(b'\'')?;
    for byte in sentence {
        if *byte == b'\'' {
            text.push(b'\'')?;
        }
        text.push(*byte)?;
    }
    text.push(b'\'')?;
    Ok(())
}

// Adds the block of YAML that says why a test isn't passed.
fn add_block(alloc: Global, text: &mut Vec<u8>, row: &Row<'_>) -> Result<(), AllocError> {
    add(text, "  ---\n  verdict: ")?;
    add_quoted(text, word_of(row.verdict).as_bytes())?;
    add(text, "\n  message: ")?;
    add_quoted(text, sentence_of(alloc, row.verdict)?.as_slice())?;
    add(text, "\n  ...\n")
}

fn add_row(
    alloc: Global,
    text: &mut Vec<u8>,
    number: usize,
    row: &Row<'_>,
) -> Result<(), AllocError> {
    let is_passed = row.is_passed();
    let word = if is_passed { "ok" } else { "not ok" };
    let begin = format!(in alloc; "{word} {number} - ")?;
    add(text, begin.as_str())?;
    if let Some(script) = row.script {
        add_description(alloc, text, script)?;
        add(text, ": ")?;
    }
    add_description(alloc, text, row.test)?;
    add(text, "\n")?;
    if !is_passed {
        add_block(alloc, text, row)?;
    }
    Ok(())
}

/// The report as TAP 13 (own): a test point for each row, and a block of YAML why one isn't passed.
///
/// `AllocError` where memory is refused.
pub fn tap_text(alloc: Global, rows: &[Row<'_>]) -> Result<Vec<u8>, AllocError> {
    let mut text = Vec::new(alloc);
    let begin = format!(in alloc; "TAP version 13\n1..{}\n", rows.len())?;
    add(&mut text, begin.as_str())?;
    for (i, row) in rows.iter().enumerate() {
        add_row(alloc, &mut text, i.saturating_add(1), row)?;
    }
    Ok(text)
}
