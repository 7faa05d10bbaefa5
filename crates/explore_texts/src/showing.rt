//! What is shown of an exploration.

use crate::drawing::page_of;
use crate::findings::{Findings, findings_of, schedules_of};
use crate::objects::{object_of, object_of_settled};
use crate::playing::{Played, page_to_play};
use crate::texts::{text_of_settled, text_of_tried};
use dead_lines::dead_lines;
use order_partings::Setting;
use script_outcomes::{Found, Pair, Tried, Watch, concluded, shown_pair};
use std::alloc::{AllocError, Global};
use xvsh_explores::{ExploreRequest, Explored};
use xvsh_read::Start;

/// What is shown of an exploration.
#[derive(Drop)]
pub struct Shown {
    /// The text, or the object.
    pub text: Vec<u8>,
    /// Where a folder for schedules is asked for, one of each outcome, as text, in the order of their numbers; else none.
    pub schedules: Vec<Vec<u8>>,
    /// Where a page is asked for and an outcome was found, the page of the pair, or of the only outcome.
    pub page: Option<Vec<u8>>,
    /// What became of the page to play.
    pub played: Played,
}

// What the runs begin with, as the parts where they part see it.
fn setting_of(start: &Start) -> Setting<'_, Global, Global> {
    Setting {
        script: &start.script,
        stdin: start.stdin.as_slice(),
        files: &start.files,
    }
}

// The text or the object of what trying orders found.
fn text_of(
    alloc: Global,
    request: &ExploreRequest<'_>,
    explored: &Explored,
    tried: &Tried,
    findings: &Findings,
) -> Result<Vec<u8>, AllocError> {
    if request.is_json {
        let conclusion = concluded(&explored.found);
        object_of(alloc, tried, findings, conclusion, explored.dead.as_slice())
    } else {
        text_of_tried(alloc, request, tried, findings)
    }
}

// What is shown of what trying orders found, but for the page to play.
fn show_tried(
    alloc: Global,
    request: &ExploreRequest<'_>,
    explored: &Explored,
    tried: &Tried,
) -> Result<Shown, AllocError> {
    let setting = setting_of(&explored.start);
    let outcomes = tried.found.outcomes.as_slice();
    let is_asked = request.pair.is_some();
    let findings = findings_of(alloc, &setting, outcomes, explored.pair, is_asked)?;
    Ok(Shown {
        text: text_of(alloc, request, explored, tried, &findings)?,
        schedules: schedules_of(alloc, request, &findings)?,
        page: page_of(alloc, &explored.start, request, outcomes, &findings)?,
        played: Played::Unasked,
    })
}

// What is shown of what was found, but for the page to play.
fn show_found(
    alloc: Global,
    request: &ExploreRequest<'_>,
    explored: &Explored,
) -> Result<Shown, AllocError> {
    let value = match &explored.found {
        Found::Tried(tried) => return show_tried(alloc, request, explored, tried),
        Found::Settled(value) => value,
    };
    let text = if request.is_json {
        object_of_settled(alloc, value, explored.dead.as_slice())?
    } else {
        text_of_settled(alloc, value.out.as_slice())?
    };
    Ok(Shown {
        text,
        schedules: Vec::new(alloc),
        page: None,
        played: Played::Unasked,
    })
}

/// What is shown of what was found by a request: its text, or the object of JSON, if the request asks for one; a schedule of each
/// outcome and the pages, if it asks for these. `watch` is shown how far the page to play is. `AllocError` where memory is refused.
pub fn show<W: Watch>(
    alloc: Global,
    request: &ExploreRequest<'_>,
    explored: &Explored,
    watch: &mut W,
) -> Result<Shown, AllocError> {
    let shown = show_found(alloc, request, explored)?;
    let played = page_to_play(alloc, &explored.start, request, watch)?;
    Ok(Shown { played, ..shown })
}

/// The object of JSON of what was found of a script from what its runs begin with, and LF. `AllocError` where memory is refused.
pub fn object_of_found(alloc: Global, start: &Start, found: &Found) -> Result<Vec<u8>, AllocError> {
    let dead = dead_lines(alloc, start.script.lines.as_slice())?;
    let tried = match found {
        Found::Settled(value) => return object_of_settled(alloc, value, dead.as_slice()),
        Found::Tried(tried) => tried,
    };
    let outcomes = tried.found.outcomes.as_slice();
    let pair: Option<Pair> = shown_pair(outcomes, None);
    let findings = findings_of(alloc, &setting_of(start), outcomes, pair, false)?;
    object_of(alloc, tried, &findings, concluded(found), dead.as_slice())
}
