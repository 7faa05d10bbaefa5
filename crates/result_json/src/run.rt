//! The result of a run by processes.

use crate::files::write_files;
use crate::head::begin_result;
use crate::reasons::write_reasons;
use crate::words::full_word;
use dead_lines::dead_lines;
use kernel_model::{Event, Full};
use mem_files::Files;
use plain_run::Reason;
use script_load::Line as ScriptLine;
use sh_lexer::Bytes;
use std::alloc::{AllocError, Global};
use trace_lines::Line;
use xvsh_read::Status;

/// What is known of a script by its meaning.
#[derive(Clone, Copy)]
pub struct Verdict<'a> {
    /// Whether it is settled.
    pub is_settled: bool,
    /// The names of its soft files.
    pub soft: &'a [Bytes<Global>],
    /// Why it isn't settled.
    pub reasons: &'a [Reason<Global>],
}

/// What is reported of a finished run.
#[derive(Clone, Copy)]
pub struct RunValues<'a> {
    /// What was written to standard output.
    pub output: &'a [u8],
    /// The diagnostics.
    pub diagnostics: &'a [u8],
    /// The files at the end.
    pub files: &'a Files<Global>,
    /// What was full first, if something was.
    pub full: Option<Full>,
    /// On how many harts it was run.
    pub harts: u8,
    /// The lines of its script.
    pub lines: &'a [ScriptLine<Global>],
    /// Its events.
    pub schedule: &'a [Event],
    /// Whether the events are listed.
    pub lists_events: bool,
    /// What is known by the script's meaning, where that was asked for.
    pub verdict: Option<Verdict<'a>>,
}

// The word of the status: what the exit status says.
fn status_word(values: &RunValues<'_>) -> &'static str {
    match (values.full, values.verdict) {
        (Some(_), _) => "full",
        (None, None) => "finished",
        (None, Some(verdict)) => {
            if verdict.is_settled {
                "settled"
            } else {
                "not settled"
            }
        }
    }
}

// An event as the line of a schedule, without LF.
fn event_word(alloc: Global, event: Event) -> Result<String, AllocError> {
    match event {
        Event::Dispatch(hart, pid) => format!(in alloc; "D {hart} {pid}"),
        Event::Trap(hart, pid) => format!(in alloc; "T {hart} {pid}"),
    }
}

// All events, in order.
fn write_schedule(line: &mut Line, alloc: Global, schedule: &[Event]) -> Result<(), AllocError> {
    line.begin_list("schedule")?;
    for event in schedule {
        let word = event_word(alloc, *event)?;
        line.raw_word(word.as_str())?;
    }
    line.end_list()
}

// What was full, or `null`.
fn write_full(line: &mut Line, full: Option<Full>) -> Result<(), AllocError> {
    match full {
        Some(full) => line.word("full", full_word(full)),
        None => line.nothing("full"),
    }
}

/// Adds the member `dead_lines`, the numbers of the lines that do nothing (own).
pub fn write_dead(line: &mut Line, numbers: &[usize]) -> Result<(), AllocError> {
    line.begin_list("dead_lines")?;
    for number in numbers {
        line.raw_count(*number as u64)?;
    }
    line.end_list()
}

/// The result of a finished run by processes as one object of JSON, and LF (own): `format`, `version`, `command`, `status`
/// (`full` where something was; else `settled` or `not settled` where that is known, else `finished`), `code`, the status with
/// which the program ends, `output`, `diagnostics`, `files`, each `soft` or not where that is known, `finished`, `full`, the
/// number of `events` and of `harts`, `dead_lines`, the numbers of the lines that are no command or name no program; `schedule`, a list of the events as the lines of a schedule, where they are listed; and
/// `settled` and `reasons`, where these are known.
///
/// Bytes are a string where they are UTF-8, else an object whose member `base64` is their base64. `AllocError` where memory for
/// the text is refused.
pub fn run_result(
    alloc: Global,
    command: &str,
    values: &RunValues<'_>,
    code: Status,
) -> Result<Vec<u8>, AllocError> {
    let mut line = begin_result(alloc, command, status_word(values), code)?;
    line.bytes("output", values.output)?;
    line.bytes("diagnostics", values.diagnostics)?;
    let soft = match values.verdict {
        Some(verdict) => Some(verdict.soft),
        None => None,
    };
    write_files(&mut line, values.files, soft)?;
    line.truth("finished", true)?;
    write_full(&mut line, values.full)?;
    line.count("events", values.schedule.len() as u64)?;
    line.count("harts", u64::from(values.harts))?;
    let dead = dead_lines(alloc, values.lines)?;
    write_dead(&mut line, dead.as_slice())?;
    if values.lists_events {
        write_schedule(&mut line, alloc, values.schedule)?;
    }
    if let Some(verdict) = values.verdict {
        line.truth("settled", verdict.is_settled)?;
        write_reasons(&mut line, verdict.reasons)?;
    }
    line.end()
}
