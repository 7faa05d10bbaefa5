//! What is printed of an exploration.

use crate::cutting::add_bytes;
use crate::findings::{Findings, Parted};
use crate::replays::add_replay;
use result_json::full_word;
use script_outcomes::{Outcome, Tried};
use shown::add_shown;
use std::alloc::{AllocError, Global};
use xvsh_explores::ExploreRequest;

// `1 output`, `4 outputs`.
fn add_count(
    alloc: Global,
    text: &mut Vec<u8>,
    count: usize,
    what: &str,
) -> Result<(), AllocError> {
    let end = if count == 1 { "" } else { "s" };
    let made = format!(in alloc; "{count} {what}{end}")?;
    text.extend_from_slice(made.as_bytes())
}

// How many of the outcomes have another output than the one before.
fn outputs_of(outcomes: &[Outcome]) -> usize {
    let mut count: usize = 0;
    let mut last: Option<&[u8]> = None;
    for outcome in outcomes {
        if last != Some(outcome.out.as_slice()) {
            count = count.saturating_add(1);
        }
        last = Some(outcome.out.as_slice());
    }
    count
}

// Of how many runs and states the outcomes are, and whether every order was tried.
fn add_tried(alloc: Global, text: &mut Vec<u8>, tried: &Tried) -> Result<(), AllocError> {
    if tried.found.whole {
        text.extend_from_slice(b", every order tried (".as_slice())?;
        add_count(alloc, text, tried.found.states, "state")?;
        return text.extend_from_slice(b")\n".as_slice());
    }
    text.extend_from_slice(b" so far (of ".as_slice())?;
    add_count(alloc, text, tried.runs, "run")?;
    text.extend_from_slice(b" and ".as_slice())?;
    add_count(alloc, text, tried.found.states, "state")?;
    text.extend_from_slice(b"), not every order was tried".as_slice())?;
    if tried.found.stopped {
        text.extend_from_slice(b": the search took all the memory that it may".as_slice())?;
    }
    text.push(b'\n')?;
    Ok(())
}

// The first line: how many outputs and outcomes there are, and whether every order was tried.
fn add_head(
    alloc: Global,
    text: &mut Vec<u8>,
    tried: &Tried,
    outputs: usize,
) -> Result<(), AllocError> {
    let outcomes = tried.found.outcomes.len();
    add_count(alloc, text, outputs, "output")?;
    if outputs < outcomes {
        text.extend_from_slice(b", ".as_slice())?;
        add_count(alloc, text, outcomes, "outcome")?;
    }
    add_tried(alloc, text, tried)
}

// A line for each file, and one for the diagnostics.
fn add_more(alloc: Global, text: &mut Vec<u8>, outcome: &Outcome) -> Result<(), AllocError> {
    for place in 0..outcome.files.count() {
        let name = outcome.files.name_at(place).unwrap_or(&[]);
        text.extend_from_slice(b"     file ".as_slice())?;
        add_bytes(alloc, text, name)?;
        text.extend_from_slice(b": ".as_slice())?;
        add_bytes(alloc, text, outcome.files.get(name).unwrap_or(&[]))?;
        text.push(b'\n')?;
    }
    if !outcome.diag.is_empty() {
        text.extend_from_slice(b"     told: ".as_slice())?;
        add_bytes(alloc, text, outcome.diag.as_slice())?;
        text.push(b'\n')?;
    }
    Ok(())
}

// A line for what was full first, if something was.
fn add_full(alloc: Global, text: &mut Vec<u8>, outcome: &Outcome) -> Result<(), AllocError> {
    if let Some(full) = outcome.full {
        let line = format!(in alloc; "     full {}\n", full_word(full))?;
        text.extend_from_slice(line.as_bytes())?;
    }
    Ok(())
}

// The line of an outcome: its number, its output, and how many events lead there.
fn add_outcome(
    alloc: Global,
    text: &mut Vec<u8>,
    number: usize,
    outcome: &Outcome,
) -> Result<(), AllocError> {
    let begin = format!(in alloc; "{number}: ")?;
    text.extend_from_slice(begin.as_bytes())?;
    add_bytes(alloc, text, outcome.out.as_slice())?;
    let events = outcome.pids.len().saturating_mul(2);
    let end = format!(in alloc; "    {events} events")?;
    text.extend_from_slice(end.as_bytes())?;
    if outcome.out.last().is_some_and(|byte| *byte != b'\n') {
        text.extend_from_slice(b"    (no line's end)".as_slice())?;
    }
    text.push(b'\n')?;
    Ok(())
}

// Adds each outcome, with its files and its diagnostics where some outputs have more than one.
fn add_outcomes(
    alloc: Global,
    text: &mut Vec<u8>,
    outcomes: &[Outcome],
    shows_more: bool,
) -> Result<(), AllocError> {
    for (i, outcome) in outcomes.iter().enumerate() {
        add_outcome(alloc, text, i.saturating_add(1), outcome)?;
        if shows_more {
            add_more(alloc, text, outcome)?;
        }
        add_full(alloc, text, outcome)?;
    }
    Ok(())
}

// Where the schedules of two outcomes part, the second one with this number.
fn add_parting(
    alloc: Global,
    text: &mut Vec<u8>,
    number: usize,
    parted: &Parted,
) -> Result<(), AllocError> {
    let from = parted.from.saturating_add(1);
    let event = parted.parting.event;
    let begin = format!(in alloc; "{from} and {number} part at event {event}: ")?;
    text.extend_from_slice(begin.as_bytes())?;
    add_shown(text, parted.parting.one.as_slice())?;
    text.extend_from_slice(b", or ".as_slice())?;
    add_shown(text, parted.parting.other.as_slice())?;
    text.extend_from_slice(b" first\n".as_slice())
}

// A line for each place at which the schedules of two outcomes part.
fn add_partings(alloc: Global, text: &mut Vec<u8>, findings: &Findings) -> Result<(), AllocError> {
    for (i, found) in findings.partings.iter().enumerate() {
        if let Some(parted) = found {
            add_parting(alloc, text, i.saturating_add(1), parted)?;
        }
    }
    Ok(())
}

// A line where every process may come to sleep for ever.
fn add_stuck(alloc: Global, text: &mut Vec<u8>, tried: &Tried) -> Result<(), AllocError> {
    if let Some(pids) = &tried.found.stuck {
        let events = pids.len().saturating_mul(2);
        let line = format!(in alloc;
            "after {events} events of some order every process sleeps for ever\n"
        )?;
        text.extend_from_slice(line.as_bytes())?;
    }
    Ok(())
}

/// The text of an exploration: a line on how many outputs there are and whether every order was tried, and then a line an
/// outcome, with the events of a run to it, and one for what was full in it. Where outcomes differ in more than the
/// output, each has its files and its diagnostics below it. Then comes where the schedules of two outcomes part: of the first and of
/// each other one, or of many outcomes those of the two whose difference is easiest to see, or of the two that are asked for; and, where schedules are written, how to replay one. Bytes that aren't printable ASCII are shown by
/// their escapes.
pub fn text_of_tried(
    alloc: Global,
    request: &ExploreRequest<'_>,
    tried: &Tried,
    findings: &Findings,
) -> Result<Vec<u8>, AllocError> {
    let mut text = Vec::new(alloc);
    let outcomes = tried.found.outcomes.as_slice();
    let outputs = outputs_of(outcomes);
    add_head(alloc, &mut text, tried, outputs)?;
    add_outcomes(alloc, &mut text, outcomes, outputs < outcomes.len())?;
    add_stuck(alloc, &mut text, tried)?;
    add_partings(alloc, &mut text, findings)?;
    if !outcomes.is_empty() {
        add_replay(&mut text, request)?;
    }
    Ok(text)
}

/// The text of a settled script, whose output and files are the same in every order.
pub fn text_of_settled(alloc: Global, out: &[u8]) -> Result<Vec<u8>, AllocError> {
    let mut text = Vec::new(alloc);
    text.extend_from_slice(b"1 output, of every order (settled)\n1: ".as_slice())?;
    add_bytes(alloc, &mut text, out)?;
    if out.last().is_some_and(|byte| *byte != b'\n') {
        text.extend_from_slice(b"    (no line's end)".as_slice())?;
    }
    text.push(b'\n')?;
    Ok(text)
}
