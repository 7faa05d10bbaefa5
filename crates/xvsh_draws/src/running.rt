//! What `draw` does: it reads traces, and returns a page or a picture.

use crate::fault::DrawFault;
use crate::request::DrawRequest;
use figure_page::{pair_page, pair_svg, run_page, run_svg};
use run_figure::first_stranger;
use std::alloc::{AllocError, Global};
use trace_read::{Trace, TraceFault, read_trace};
use xvsh_read::{Host, read};

/// The most bytes that a trace may have (own).
pub const MAX_TRACE: usize = 536_870_912;

// The trace of a text, in which each event is of a process that was made.
pub(crate) fn trace_of(alloc: Global, bytes: &[u8]) -> Result<Trace<Global>, TraceFault> {
    let trace = read_trace(alloc, bytes)?;
    match first_stranger(trace.events.as_slice()) {
        None => Ok(trace),
        Some(before) => Err(TraceFault::Stranger(before.saturating_add(2))),
    }
}

// The trace at a path.
fn trace_at<'a, H: Host>(
    alloc: Global,
    host: &mut H,
    path: &'a str,
) -> Result<Trace<Global>, DrawFault<'a>> {
    let bytes = read(alloc, host, path, MAX_TRACE)?;
    match trace_of(alloc, bytes.as_slice()) {
        Ok(trace) => Ok(trace),
        Err(fault) => Err(DrawFault::NoTrace(path, fault)),
    }
}

// What is drawn of one trace.
fn drawn(
    alloc: Global,
    request: &DrawRequest<'_>,
    trace: &Trace<Global>,
) -> Result<Vec<u8>, AllocError> {
    if request.is_svg {
        run_svg(alloc, trace, request.bounds)
    } else {
        run_page(alloc, trace, request.bounds)
    }
}

// What is drawn of two.
fn both_drawn(
    alloc: Global,
    request: &DrawRequest<'_>,
    trace: &Trace<Global>,
    other: &Trace<Global>,
) -> Result<Vec<u8>, AllocError> {
    if request.is_svg {
        pair_svg(alloc, trace, other, request.bounds)
    } else {
        pair_page(alloc, trace, other, request.bounds)
    }
}

/// `draw`: reads the traces, and returns the page of one, or of both: `run_page` and `pair_page` of `figure_page`; or the picture alone
/// where it is asked for: `run_svg` and `pair_svg` of `figure_page`. Nothing is written. Own.
///
/// `Read` where a trace can't be read, is too long, or memory is refused; `NoTrace` where a text is no trace, or has an event of
/// a process that no event before it made; `OtherScript` where the two scripts differ.
pub fn run_draw<'a, H: Host>(
    alloc: Global,
    request: &DrawRequest<'a>,
    host: &mut H,
) -> Result<Vec<u8>, DrawFault<'a>> {
    let trace = trace_at(alloc, host, request.trace)?;
    let Some(path) = request.other else {
        return Ok(drawn(alloc, request, &trace)?);
    };
    let other = trace_at(alloc, host, path)?;
    if trace.text(trace.head.script) != other.text(other.head.script) {
        return Err(DrawFault::OtherScript);
    }
    Ok(both_drawn(alloc, request, &trace, &other)?)
}
