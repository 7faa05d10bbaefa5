//! The picture of two runs of one script.

use crate::svg_drawing::{Drawing, add_description};
use Piece::{Mark, Num};
use figure_strips::{Bounds, Span};
use figure_words::{Page, Piece, Run};
use run_figure::common_events;
use std::alloc::{AllocError, Allocator};
use trace_read::Trace;

// The events of a run from where the two part on, below their title.
fn add_rest<A: Allocator + Copy>(
    alloc: A,
    drawing: &mut Drawing<A>,
    run: &mut Run<'_, A>,
    title: &'static str,
    span: Span,
) -> Result<(), AllocError> {
    let title = [
        Mark(title),
        Mark(", from event "),
        Num(span.first),
        Mark(" on"),
    ];
    drawing.title(&title);
    drawing.strips(alloc, run, span)
}

// What both runs begin with, so many events, as the first has it.
fn add_beginning<A: Allocator + Copy>(
    alloc: A,
    drawing: &mut Drawing<A>,
    run: &mut Run<'_, A>,
    count: usize,
    span: Span,
) -> Result<(), AllocError> {
    if count == 0 {
        return Ok(());
    }
    drawing.title(&[Mark("What both begin with")]);
    drawing.strips(alloc, run, span)
}

/// The picture of two runs of one script, in SVG that stands alone: how large both are and how they ended, once what both begin with,
/// the event at which they part, and then the rest of each. The bounds are as of `run_svg`, of each run. Own.
///
/// `AllocError` where memory is refused.
pub fn pair_svg<A: Allocator + Copy>(
    alloc: A,
    one: &Trace<A>,
    other: &Trace<A>,
    bounds: Bounds,
) -> Result<Vec<u8, A>, AllocError> {
    let mut first = Run::new(alloc, one)?;
    let mut second = Run::new(alloc, other)?;
    let mut description = Page::new(alloc);
    add_description(&mut description, "Run 1: ", &first);
    add_description(&mut description, "Run 2: ", &second);
    let span = bounds.span(one.events.len());
    let second_span = bounds.span(other.events.len());
    let script = one.text(one.head.script);
    let mut drawing = Drawing::new(alloc);
    drawing.script(script);
    drawing.facts("Run 1: ", &first, span);
    drawing.facts("Run 2: ", &second, second_span);
    let count = common_events(one.events.as_slice(), other.events.as_slice());
    let parting = count.saturating_add(1);
    add_beginning(alloc, &mut drawing, &mut first, count, span.before(parting))?;
    if count == one.events.len() && count == other.events.len() {
        drawing.line("fact", &[Mark("The events of both are the same.")]);
        return drawing.end(alloc, "Two runs of a script", script, description);
    }
    drawing.parting(count);
    add_rest(alloc, &mut drawing, &mut first, "Run 1", span.from(parting))?;
    add_rest(
        alloc,
        &mut drawing,
        &mut second,
        "Run 2",
        second_span.from(parting),
    )?;
    drawing.end(alloc, "Two runs of a script", script, description)
}
