//! What can still come out, in every order of the processes.

use crate::objects::write_files;
use crate::text::Text;
use crate::views::add_all_files;
use crate::words::add_quoted;
use result_json::full_word;
use std::alloc::AllocError;
use step_session::{Exploration, Outcome};
use trace_lines::Line;

// How many states are tried where no number is given (own).
const FIRST_STATES: u64 = 20_000;

// How many bytes states may take in all, and about how many each takes beside the turns that lead to it (own).
const MOST_BYTES: usize = 400_000_000;

const STATE_SIZE: usize = 1_000;

// How many outcomes text has, and how many turns of each.
const SHOWN_OUTCOMES: usize = 20;

const SHOWN_TURNS: usize = 60;

// How many states are tried after so many turns: as many as are asked for, if there is room for them.
pub(crate) fn states_after(turns: usize, asked: Option<u64>) -> usize {
    let asked = usize::try_from(asked.unwrap_or(FIRST_STATES)).unwrap_or(usize::MAX);
    asked.min(MOST_BYTES / turns.saturating_add(STATE_SIZE))
}

// The turns behind so many that were taken.
fn behind(pids: &[u8], taken: usize) -> &[u8] {
    if taken < pids.len() {
        &pids[taken..]
    } else {
        &[]
    }
}

// How many outcomes there are, and whether every order was tried.
fn add_head(text: &mut Text, found: &Exploration) {
    text.count(found.outcomes.len(), "outcome");
    text.add(if found.whole {
        ", every order from here was tried ("
    } else {
        " so far, not every order from here was tried ("
    });
    text.count(found.states, "state");
    text.add(")\n");
}

// The turns of these processes, of more than 60 the first 60 and how many there are.
fn add_turns(text: &mut Text, pids: &[u8]) {
    if pids.is_empty() {
        text.add("without a turn");
        return;
    }
    text.add("by turns of");
    for pid in &pids[..pids.len().min(SHOWN_TURNS)] {
        text.byte(b' ');
        text.number(u64::from(*pid));
    }
    if SHOWN_TURNS < pids.len() {
        text.add(" .. (");
        text.count(pids.len(), "turn");
        text.byte(b')');
    }
}

// The diagnostics of an outcome and what was full, if anything.
fn add_marks(text: &mut Text, outcome: &Outcome) {
    if !outcome.diag.is_empty() {
        text.add("\n   diagnostics ");
        add_quoted(text, outcome.diag.as_slice(), usize::MAX);
    }
    if let Some(full) = outcome.full {
        text.add("\n   something was full: ");
        text.add(full_word(full));
    }
}

// The lines of an outcome: its output and the turns to it; its diagnostics and what was full, if anything; and its files.
fn add_outcome(text: &mut Text, number: usize, outcome: &Outcome, taken: usize) {
    text.number(number as u64);
    text.add(": output ");
    add_quoted(text, outcome.out.as_slice(), usize::MAX);
    text.add(", ");
    add_turns(text, behind(outcome.pids.as_slice(), taken));
    add_marks(text, outcome);
    text.byte(b'\n');
    add_all_files(text, &outcome.files, "   ");
}

// The outcomes, of more than 20 the first 20.
fn add_outcomes(text: &mut Text, outcomes: &[Outcome], taken: usize) {
    let shown = outcomes.len().min(SHOWN_OUTCOMES);
    for (place, outcome) in outcomes[..shown].iter().enumerate() {
        add_outcome(text, place.saturating_add(1), outcome, taken);
    }
    if shown < outcomes.len() {
        text.add("and ");
        text.number((outcomes.len() - shown) as u64);
        text.add(" more\n");
    }
}

// Adds what can still come out, after so many turns that were taken.
pub(crate) fn add_rest(text: &mut Text, found: &Exploration, taken: usize) {
    add_head(text, found);
    add_outcomes(text, found.outcomes.as_slice(), taken);
    if let Some(pids) = &found.stuck {
        text.add("every process sleeps for ever ");
        add_turns(text, behind(pids.as_slice(), taken));
        text.byte(b'\n');
    }
}

fn write_turns(line: &mut Line, key: &str, pids: &[u8]) -> Result<(), AllocError> {
    line.begin_list(key)?;
    for pid in pids {
        line.raw_count(u64::from(*pid))?;
    }
    line.end_list()
}

fn write_outcome(line: &mut Line, outcome: &Outcome, taken: usize) -> Result<(), AllocError> {
    line.begin_raw_object()?;
    line.bytes("out", outcome.out.as_slice())?;
    line.bytes("diag", outcome.diag.as_slice())?;
    write_files(line, &outcome.files)?;
    if let Some(full) = outcome.full {
        line.word("full", full_word(full))?;
    }
    write_turns(line, "turns", behind(outcome.pids.as_slice(), taken))?;
    line.end_object()
}

// The same as fields of an object.
pub(crate) fn write_rest(
    line: &mut Line,
    found: &Exploration,
    taken: usize,
) -> Result<(), AllocError> {
    line.truth("every_order_tried", found.whole)?;
    line.count("states", found.states as u64)?;
    match &found.stuck {
        Some(pids) => write_turns(line, "stuck", behind(pids.as_slice(), taken))?,
        None => line.nothing("stuck")?,
    }
    line.begin_list("outcomes")?;
    for outcome in &found.outcomes {
        write_outcome(line, outcome, taken)?;
    }
    line.end_list()
}
