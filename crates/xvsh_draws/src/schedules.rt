//! Pages of runs that are made again by their schedules.

use crate::running::trace_of;
use figure_page::{pair_page, run_page};
use figure_strips::Bounds;
use kernel_model::Event;
use std::alloc::{AllocError, Global};
use trace_read::Trace;
use xvsh_read::Start;
use xvsh_traces::trace_text;

// The trace of the run by a schedule. It is one, so only memory can be refused.
fn traced(alloc: Global, start: &Start, schedule: &[Event]) -> Result<Trace<Global>, AllocError> {
    match trace_text(alloc, start, schedule) {
        Ok(text) => trace_of(alloc, text.as_slice()).map_err(|_| AllocError),
        Err(_) => Err(AllocError),
    }
}

/// The page of the run on one hart of what was read by a schedule, or with another of both runs: `run_page` or `pair_page` of
/// `figure_page`, of all events that one page draws. Own.
///
/// `AllocError` where memory is refused, also for a schedule that can't be followed.
pub fn draw_runs(
    alloc: Global,
    start: &Start,
    schedule: &[Event],
    other: Option<&[Event]>,
) -> Result<Vec<u8>, AllocError> {
    let all = Bounds {
        from: None,
        to: None,
    };
    let trace = traced(alloc, start, schedule)?;
    let Some(other) = other else {
        return run_page(alloc, &trace, all);
    };
    let other = traced(alloc, start, other)?;
    pair_page(alloc, &trace, &other, all)
}
