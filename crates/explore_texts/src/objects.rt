//! What was found as one object of JSON.

use crate::findings::{Findings, Parted};
use plain_run::Plain;
use result_json::{begin_result, full_word, write_dead, write_files};
use script_outcomes::{Conclusion, Exploration, Outcome, Tried};
use std::alloc::{AllocError, Global};
use trace_lines::Line;
use xvsh_read::Status;

// The status in words, and the one with which the program ends.
fn status_of(conclusion: Conclusion) -> (&'static str, Status) {
    match conclusion {
        Conclusion::OneOutput => ("one output", Status::Done),
        Conclusion::SeveralOutputs => ("several outputs", Status::Amiss),
        Conclusion::Stuck => ("some order never ends", Status::Amiss),
        Conclusion::Full => ("something was full", Status::NoRoom),
        Conclusion::Part => ("not every order tried", Status::NoRoom),
    }
}

// What ended the search before every order was tried: as many states, or as much memory, as it may take.
fn write_limit(line: &mut Line, found: &Exploration) -> Result<(), AllocError> {
    match (found.whole, found.stopped) {
        (true, _) => line.nothing("limit"),
        (false, true) => line.word("limit", "memory"),
        (false, false) => line.word("limit", "states"),
    }
}

fn write_pids(line: &mut Line, key: &str, pids: &[u8]) -> Result<(), AllocError> {
    line.begin_list(key)?;
    for pid in pids {
        line.raw_count(u64::from(*pid))?;
    }
    line.end_list()
}

// Where the schedule of an outcome before this one and its own part.
fn write_parting(line: &mut Line, parted: &Parted) -> Result<(), AllocError> {
    let parting = &parted.parting;
    line.begin_object("parting")?;
    line.count("from", (parted.from as u64).saturating_add(1))?;
    line.count("event", parting.event as u64)?;
    line.bytes("there", parting.one.as_slice())?;
    line.bytes("here", parting.other.as_slice())?;
    line.end_object()
}

fn write_outcome(
    line: &mut Line,
    number: usize,
    outcome: &Outcome,
    pids: &[u8],
    parted: Option<&Parted>,
) -> Result<(), AllocError> {
    line.begin_raw_object()?;
    line.count("number", number as u64)?;
    line.bytes("output", outcome.out.as_slice())?;
    line.bytes("diagnostics", outcome.diag.as_slice())?;
    write_files(line, &outcome.files, None)?;
    if let Some(full) = outcome.full {
        line.word("full", full_word(full))?;
    }
    line.count("events", (pids.len() as u64).saturating_mul(2))?;
    write_pids(line, "schedule", pids)?;
    if let Some(parted) = parted {
        write_parting(line, parted)?;
    }
    line.end_object()
}

fn write_outcomes(
    line: &mut Line,
    outcomes: &[Outcome],
    findings: &Findings,
) -> Result<(), AllocError> {
    line.begin_list("outcomes")?;
    for (i, outcome) in outcomes.iter().enumerate() {
        let pids = match findings.ways.as_slice().get(i) {
            Some(pids) => pids.as_slice(),
            None => &[],
        };
        let parted = match findings.partings.as_slice().get(i) {
            Some(Some(parted)) => Some(parted),
            _ => None,
        };
        write_outcome(line, i.saturating_add(1), outcome, pids, parted)?;
    }
    line.end_list()
}

/// The object of what trying orders found, with this conclusion and the numbers of the script's lines that do nothing, and LF.
pub fn object_of(
    alloc: Global,
    tried: &Tried,
    findings: &Findings,
    conclusion: Conclusion,
    dead: &[usize],
) -> Result<Vec<u8>, AllocError> {
    let (status, code) = status_of(conclusion);
    let found = &tried.found;
    let mut line = begin_result(alloc, "explore", status, code)?;
    line.count("states", found.states as u64)?;
    line.count("runs", tried.runs as u64)?;
    line.truth("every_order_tried", found.whole)?;
    write_limit(&mut line, found)?;
    match &found.stuck {
        Some(pids) => write_pids(&mut line, "stuck", pids.as_slice())?,
        None => line.nothing("stuck")?,
    }
    write_outcomes(&mut line, found.outcomes.as_slice(), findings)?;
    write_dead(&mut line, dead)?;
    line.end()
}

/// The object of a settled script, whose output and files are the same in every order, with the numbers of its lines that do
/// nothing, and LF.
pub fn object_of_settled(
    alloc: Global,
    value: &Plain<Global>,
    dead: &[usize],
) -> Result<Vec<u8>, AllocError> {
    let mut line = begin_result(alloc, "explore", "settled", Status::Done)?;
    line.count("states", 0)?;
    line.count("runs", 0)?;
    line.truth("every_order_tried", false)?;
    line.nothing("limit")?;
    line.nothing("stuck")?;
    line.begin_list("outcomes")?;
    line.begin_raw_object()?;
    line.count("number", 1)?;
    line.bytes("output", value.out.as_slice())?;
    write_files(&mut line, &value.files, None)?;
    line.end_object()?;
    line.end_list()?;
    write_dead(&mut line, dead)?;
    line.end()
}
