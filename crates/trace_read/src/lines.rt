//! The lines of a trace.

use crate::events::read_event;
use crate::fault::{TraceFault, Wrong};
use crate::fields::{count, small, word};
use crate::keeping::Kept;
use crate::pieces::{read_files, read_full};
use crate::trace::{End, Head, Trace};
use json::{Error, Scratch, Value};
use std::alloc::Allocator;
use std::str;

// The most harts that a run has.
const MOST_HARTS: u8 = 8;

// What has been read of a trace.
#[derive(Drop)]
struct Reading<A: Allocator + Copy> {
    kept: Kept<A>,
    head: Option<Head>,
    end: Option<End>,
}

fn read_head<A: Allocator + Copy>(kept: &mut Kept<A>, value: &Value<'_, A>) -> Result<Head, Wrong> {
    let appends = match word(value, "profile")? {
        "xv6" => false,
        "append" => true,
        _ => return Err(Wrong::Field("profile")),
    };
    let harts = small(value, "harts", MOST_HARTS)?;
    if harts == 0 {
        return Err(Wrong::Field("harts"));
    }
    Ok(Head {
        script: kept.keep_field(value, "script")?,
        appends,
        harts,
        input: count(value, "input")?,
        files: read_files(kept, value, 0)?,
    })
}

fn read_end<A: Allocator + Copy>(kept: &mut Kept<A>, value: &Value<'_, A>) -> Result<End, Wrong> {
    let events = kept.events.len();
    if count(value, "events")? != events {
        return Err(Wrong::Field("events"));
    }
    let is_finished = match word(value, "outcome")? {
        "finished" => true,
        "unfinished" => false,
        _ => return Err(Wrong::Field("outcome")),
    };
    Ok(End {
        is_finished,
        out: kept.keep_field(value, "out")?,
        diag: kept.keep_field(value, "diag")?,
        full: read_full(value)?,
        files: read_files(kept, value, events + 1)?,
    })
}

// Whether the first line is the head of a trace of version 1.
fn is_trace<A: Allocator>(value: &Value<'_, A>) -> bool {
    let is_version = match count(value, "version") {
        Ok(version) => version == 1,
        Err(_) => false,
    };
    match (word(value, "kind"), word(value, "format")) {
        (Ok(kind), Ok(format)) => kind == "run" && format == "xvsh-trace" && is_version,
        _ => false,
    }
}

// Reads what stands behind the head.
fn read_later<A: Allocator + Copy>(
    reading: &mut Reading<A>,
    head: &Head,
    value: &Value<'_, A>,
) -> Result<(), Wrong> {
    if reading.end.is_some() {
        return Err(Wrong::Behind);
    }
    match word(value, "kind")? {
        "dispatch" => read_event(&mut reading.kept, value, false, head.harts),
        "trap" => read_event(&mut reading.kept, value, true, head.harts),
        "end" => {
            reading.end = Some(read_end(&mut reading.kept, value)?);
            Ok(())
        }
        _ => Err(Wrong::Field("kind")),
    }
}

// Reads the object of a line.
fn read_value<A: Allocator + Copy>(
    reading: &mut Reading<A>,
    value: &Value<'_, A>,
) -> Result<(), Wrong> {
    match reading.head {
        Some(head) => read_later(reading, &head, value),
        None => {
            if !is_trace(value) {
                return Err(Wrong::NoTrace);
            }
            reading.head = Some(read_head(&mut reading.kept, value)?);
            Ok(())
        }
    }
}

// Reads a line.
fn read_line<A: Allocator + Copy>(
    alloc: A,
    reading: &mut Reading<A>,
    line: &[u8],
    scratch: &mut Scratch<A>,
) -> Result<(), Wrong> {
    let Ok(text) = str::from_utf8(line) else {
        return Err(Wrong::NoObject);
    };
    match Value::parse_strict(alloc, text, scratch) {
        Ok(value) => match &value {
            Value::Object(_) => read_value(reading, &value),
            _ => Err(Wrong::NoObject),
        },
        Err(Error::OutOfMemory) => Err(Wrong::Memory),
        Err(_) => Err(Wrong::NoObject),
    }
}

// Reads all lines, and returns how many there are.
fn read_lines<A: Allocator + Copy>(
    alloc: A,
    reading: &mut Reading<A>,
    bytes: &[u8],
) -> Result<usize, TraceFault> {
    let mut scratch = Scratch::new(alloc);
    let mut number: usize = 0;
    for line in bytes.split_inclusive(|byte| *byte == b'\n') {
        number = number.saturating_add(1);
        let Some(line) = line.strip_suffix(b"\n") else {
            return Err(TraceFault::Cut(number));
        };
        if let Err(wrong) = read_line(alloc, reading, line, &mut scratch) {
            return Err(wrong.at(number));
        }
    }
    Ok(number)
}

/// The trace of a text in JSON Lines of version 1, whose fields are in `docs/FORMATS.md`; unknown fields are skipped (own).
///
/// The faults name the first line, counted from 1, that is no line of a trace: `NoTrace` where line 1 is no head; `NoObject` where
/// a line isn't one object of JSON in UTF-8, with each key once; `Field` where a field is missing or has a value that no trace has
/// there, as the number of an event that isn't one more than that before, or the dispatch of a trap that is none of its process;
/// `Behind` where a line follows the end. `Cut` where the text ends before the line of the end, or in the middle of a line. `Memory`
/// where memory is refused.
pub fn read_trace<A: Allocator + Copy>(alloc: A, bytes: &[u8]) -> Result<Trace<A>, TraceFault> {
    let mut reading = Reading {
        kept: Kept::new(alloc),
        head: None,
        end: None,
    };
    let lines = read_lines(alloc, &mut reading, bytes)?;
    let Reading { kept, head, end } = reading;
    let (Some(head), Some(end)) = (head, end) else {
        return Err(TraceFault::Cut(lines.saturating_add(1)));
    };
    let Kept {
        alloc: _,
        bytes,
        words,
        events,
        pipes,
        files,
    } = kept;
    Ok(Trace {
        bytes,
        words,
        events,
        pipes,
        files,
        head,
        end,
    })
}
