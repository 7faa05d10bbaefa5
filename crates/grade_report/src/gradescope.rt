//! The report as Gradescope's `results.json`.

use crate::rows::{Row, scripts_of};
use crate::sentences::{sentence_of, word_of};
use shown::add_name;
use std::alloc::{AllocError, Global};
use trace_lines::Line;

// The name of the test, with its script's where there are several.
fn name_of(alloc: Global, row: &Row<'_>, has_several: bool) -> Result<Vec<u8>, AllocError> {
    let mut name = Vec::new(alloc);
    if has_several {
        if let Some(script) = row.script {
            add_name(&mut name, script)?;
            name.extend_from_slice(b": ".as_slice())?;
        }
    }
    add_name(&mut name, row.test)?;
    Ok(name)
}

// The verdict, and why.
fn output_of(alloc: Global, row: &Row<'_>) -> Result<Vec<u8>, AllocError> {
    let mut output = Vec::from_slice(alloc, word_of(row.verdict).as_bytes())?;
    let sentence = sentence_of(alloc, row.verdict)?;
    if !sentence.is_empty() {
        output.extend_from_slice(b": ".as_slice())?;
        output.extend_from_slice(sentence.as_slice())?;
    }
    Ok(output)
}

fn write_row(
    alloc: Global,
    line: &mut Line,
    row: &Row<'_>,
    has_several: bool,
) -> Result<(), AllocError> {
    let status = if row.is_passed() { "passed" } else { "failed" };
    line.begin_raw_object()?;
    line.bytes("name", name_of(alloc, row, has_several)?.as_slice())?;
    line.count("score", row.earned())?;
    line.count("max_score", row.points)?;
    line.word("status", status)?;
    line.bytes("output", output_of(alloc, row)?.as_slice())?;
    line.end_object()
}

/// The report as Gradescope reads it (its autograder's `results.json`): the tests with `name`, `score`, `max_score`, `status` and
/// `output`. Where several scripts are graded their paths stand before the names.
///
/// `AllocError` where memory is refused.
pub fn gradescope_text(alloc: Global, rows: &[Row<'_>]) -> Result<Vec<u8>, AllocError> {
    let has_several = scripts_of(rows) > 1;
    let mut line = Line::begin(alloc, Vec::new(alloc))?;
    line.begin_list("tests")?;
    for row in rows {
        write_row(alloc, &mut line, row, has_several)?;
    }
    line.end_list()?;
    line.end()
}
