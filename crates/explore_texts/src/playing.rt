//! The page on which a reader chooses who goes next.

use crate::replays::stepped;
use play_page::{Limits, PageFault, Setting, Words, play_page};
use script_outcomes::Watch;
use std::alloc::{AllocError, Global};
use xvsh_explores::ExploreRequest;
use xvsh_read::Start;
use xvsh_traces::script_text;

// How many states are shown at most, about (own).
const MOST_SHOWN: usize = 4_000;

// The program, as a page names it.
const PROGRAM: &str = "xvsh";

/// What became of the page.
#[derive(Drop)]
pub enum Played {
    /// None is asked for.
    Unasked,
    /// The page.
    Page(Vec<u8>),
    /// There is none, for this reason.
    Refused(PageFault),
}

/// The page, if one is asked for. It holds of the same runs as what was found: each state that it shows, and what can still come of that,
/// is found anew (`play_states`), with at most as many states as the request has. `watch` is shown how far it is.
pub fn page_to_play<W: Watch>(
    alloc: Global,
    start: &Start,
    request: &ExploreRequest<'_>,
    watch: &mut W,
) -> Result<Played, AllocError> {
    if request.play.is_none() {
        return Ok(Played::Unasked);
    }
    let script = script_text(alloc, &start.script)?;
    let command = stepped(alloc, request)?;
    let words = Words {
        program: PROGRAM,
        script: script.as_slice(),
        command: command.as_slice(),
    };
    let setting = Setting {
        script: &start.script,
        stdin: start.stdin.as_slice(),
        files: &start.files,
    };
    let limits = Limits {
        states: request.states as usize,
        shown: MOST_SHOWN,
    };
    match play_page(alloc, &setting, &words, limits, watch) {
        Ok(page) => Ok(Played::Page(page)),
        Err(PageFault::Memory) => Err(AllocError),
        Err(fault) => Ok(Played::Refused(fault)),
    }
}
