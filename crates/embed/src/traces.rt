//! Traces of runs that took place before.

use crate::beginning::{Begun, begin};
use crate::replays::schedule_of;
use crate::task::Task;
use std::alloc::Global;
use trace_read::{Trace, read_trace};
use xvsh_read::Start;
use xvsh_traces::trace_text;

/// The lines of the trace of the run of the task by this schedule, which took place before: so only memory can be refused.
pub(crate) fn lines_by(alloc: Global, task: &Task<'_>, schedule: &[u8]) -> Option<Vec<u8>> {
    let Ok(Begun { script, files }) = begin(alloc, task) else {
        return None;
    };
    let Ok(events) = schedule_of(alloc, schedule) else {
        return None;
    };
    let Ok(stdin) = Vec::from_slice(alloc, task.stdin) else {
        return None;
    };
    let start = Start {
        script,
        stdin,
        files,
    };
    match trace_text(alloc, &start, events.as_slice()) {
        Ok(lines) => Some(lines),
        Err(_) => None,
    }
}

/// The same trace, as values.
pub(crate) fn trace_by(alloc: Global, task: &Task<'_>, schedule: &[u8]) -> Option<Trace<Global>> {
    let lines = lines_by(alloc, task, schedule)?;
    match read_trace(alloc, lines.as_slice()) {
        Ok(trace) => Some(trace),
        Err(_) => None,
    }
}
