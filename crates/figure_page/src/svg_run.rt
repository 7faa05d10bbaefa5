//! The picture of one run.

use crate::svg_drawing::{Drawing, add_description};
use figure_strips::Bounds;
use figure_words::{Page, Run};
use std::alloc::{AllocError, Allocator};
use trace_read::Trace;

/// The picture of a run, in SVG that stands alone: its script, how large it is and how it ended, and the strips of the events in the
/// bounds, of which at most `MOST_EVENTS` are drawn; it says which are, if not all. Its colours are those of a dark page where the
/// reader prefers these. Own.
///
/// `AllocError` where memory is refused.
pub fn run_svg<A: Allocator + Copy>(
    alloc: A,
    trace: &Trace<A>,
    bounds: Bounds,
) -> Result<Vec<u8, A>, AllocError> {
    let mut run = Run::new(alloc, trace)?;
    let mut drawing = Drawing::new(alloc);
    let mut description = Page::new(alloc);
    let script = trace.text(trace.head.script);
    let span = bounds.span(trace.events.len());
    add_description(&mut description, "", &run);
    drawing.script(script);
    drawing.facts("", &run, span);
    drawing.strips(alloc, &mut run, span)?;
    drawing.end(alloc, "A run of a script", script, description)
}
