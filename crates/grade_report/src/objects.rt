//! The report as one object of JSON.

use crate::rows::{Row, Sum, script_end, sum_of};
use crate::sentences::{sentence_of, word_of};
use grade_verdicts::{Difference, Place, Race, Refusal, Verdict};
use result_json::{begin_result, full_word};
use std::alloc::{AllocError, Global};
use trace_lines::Line;
use xvsh_read::Status;

fn write_text(line: &mut Line, key: &str, text: Option<&Vec<u8>>) -> Result<(), AllocError> {
    match text {
        Some(text) => line.bytes(key, text.as_slice()),
        None => line.nothing(key),
    }
}

fn write_difference(line: &mut Line, difference: &Difference) -> Result<(), AllocError> {
    line.begin_object("difference")?;
    match &difference.place {
        Place::Output => line.nothing("file")?,
        Place::File(name) | Place::NoFile(name) => line.bytes("file", name.as_slice())?,
    }
    line.truth("is_there", !matches!(&difference.place, Place::NoFile(_)))?;
    line.count("line", difference.line as u64)?;
    line.count("byte", difference.byte as u64)?;
    line.count("from", difference.from as u64)?;
    write_text(line, "expected", difference.expected.as_ref())?;
    write_text(line, "found", difference.found.as_ref())?;
    line.end_object()
}

fn write_schedule(line: &mut Line, key: &str, pids: &[u8]) -> Result<(), AllocError> {
    line.begin_list(key)?;
    for pid in pids {
        line.raw_count(u64::from(*pid))?;
    }
    line.end_list()
}

fn write_race(line: &mut Line, race: &Race) -> Result<(), AllocError> {
    write_difference(line, &race.difference)?;
    write_schedule(line, "right", race.right.as_slice())?;
    write_schedule(line, "wrong", race.wrong.as_slice())
}

fn write_why(line: &mut Line, verdict: &Verdict) -> Result<(), AllocError> {
    match verdict {
        Verdict::Wrong(difference) | Verdict::WrongSoFar(difference) => {
            write_difference(line, difference)
        }
        Verdict::Unsure(found) => line.count("found", *found as u64),
        Verdict::NoRoom(full) => line.word("full", full_word(*full)),
        Verdict::Race(race) => write_race(line, race),
        Verdict::Refused(Refusal::Line(number, _)) => line.count("line", *number as u64),
        _ => Ok(()),
    }
}

fn write_row(alloc: Global, line: &mut Line, row: &Row<'_>) -> Result<(), AllocError> {
    line.begin_raw_object()?;
    line.word("name", row.test)?;
    line.word("verdict", word_of(row.verdict))?;
    line.count("points", row.earned())?;
    line.count("of", row.points)?;
    let sentence = sentence_of(alloc, row.verdict)?;
    if !sentence.is_empty() {
        line.bytes("message", sentence.as_slice())?;
    }
    if let Some(verdict) = row.verdict {
        write_why(line, verdict)?;
    }
    line.end_object()
}

fn write_sum(line: &mut Line, sum: Sum) -> Result<(), AllocError> {
    line.count("points", sum.points)?;
    line.count("of", sum.of)?;
    line.count("passed", sum.passed as u64)?;
    line.count("tests", sum.tests as u64)
}

fn write_script(alloc: Global, line: &mut Line, rows: &[Row<'_>]) -> Result<(), AllocError> {
    line.begin_raw_object()?;
    match rows.first() {
        Some(
            Row {
                script: Some(script),
                ..
            },
        ) => line.word("script", script)?,
        _ => line.nothing("script")?,
    }
    write_sum(line, sum_of(rows))?;
    line.begin_list("results")?;
    for row in rows {
        write_row(alloc, line, row)?;
    }
    line.end_list()?;
    line.end_object()
}

/// The report as one object of JSON, and LF (own): its form is in `docs/FORMATS.md`.
///
/// `AllocError` where memory is refused.
pub fn object_text(alloc: Global, rows: &[Row<'_>]) -> Result<Vec<u8>, AllocError> {
    let sum = sum_of(rows);
    let (status, code) = if sum.unjudged > 0 {
        ("not all judged", Status::NoRoom)
    } else if sum.passed == sum.tests {
        ("all passed", Status::Done)
    } else {
        ("not all passed", Status::Amiss)
    };
    let mut line = begin_result(alloc, "grade", status, code)?;
    write_sum(&mut line, sum)?;
    line.begin_list("scripts")?;
    let mut from = 0;
    for _ in 0..rows.len() {
        if from >= rows.len() {
            break;
        }
        let end = script_end(rows, from);
        let own = rows.get(from..end).unwrap_or(&[]);
        write_script(alloc, &mut line, own)?;
        from = end;
    }
    line.end_list()?;
    line.end()
}
