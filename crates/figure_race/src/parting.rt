//! Where two runs part: the event, and what comes then in each.

use Piece::{Mark, Num};
use figure_words::{Page, Piece, Run, add_parting, add_process, add_sentence};
use std::alloc::Allocator;
use trace_read::Event;

// How many columns a command takes.
const ROOM: usize = 40;

/// The call that the process of the event makes then: at the event, or at the first one to which it runs from there.
pub(crate) fn deed_of(events: &[Event], number: usize) -> Option<&Event> {
    events
        .iter()
        .skip(number.saturating_sub(1))
        .find(|event| match event.trap {
            Some(trap) => event.number == number || trap.from == number,
            None => false,
        })
}

// What comes at an event in a run.
fn add_deed<A: Allocator + Copy>(page: &mut Page<A>, run: &Run<'_, A>, number: usize) {
    let events = run.trace.events.as_slice();
    if let Some(event) = deed_of(events, number) {
        page.mark("<p>Process ");
        add_process(page, run, event, ROOM);
        page.mark("</p>");
        if let Some(trap) = &event.trap {
            page.mark("<p>");
            add_sentence(page, run, event, trap);
            page.mark("</p>");
        }
        return;
    }
    match events.get(number.wrapping_sub(1)) {
        None => page.mark("<p>The run has ended.</p>"),
        Some(event) => {
            page.mark("<p>Process ");
            add_process(page, run, event, ROOM);
            page.mark(" begins to run</p>")
        }
    }
}

// A card of a run: what comes in it at an event.
fn add_card<A: Allocator + Copy>(
    page: &mut Page<A>,
    run: &Run<'_, A>,
    name: &'static str,
    number: usize,
) {
    page.add(&[
        Mark("<div class=\"card\"><b>In "),
        Mark(name),
        Mark(", event "),
        Num(number),
        Mark("</b>"),
    ]);
    add_deed(page, run, number);
    page.mark("</div>\n");
}

// Whether two runs are the same that begin with so many same events.
fn are_same<A: Allocator>(one: &Run<'_, A>, other: &Run<'_, A>, count: usize) -> bool {
    count == one.trace.events.len() && count == other.trace.events.len()
}

/// Where two runs part that begin with so many same events, in a sentence.
pub(crate) fn add_where<A: Allocator>(
    page: &mut Page<A>,
    one: &Run<'_, A>,
    other: &Run<'_, A>,
    count: usize,
) {
    page.mark("<h2>Where they part</h2>\n");
    if are_same(one, other, count) {
        page.mark("<p>Nowhere: the events of both are the same.</p>\n");
        return;
    }
    page.mark("<p>");
    add_parting(page, count);
    page.mark("</p>\n");
}

/// What comes in each of two runs at the event at which they part, which begin with so many same events. Own.
pub fn add_turns<A: Allocator + Copy>(
    page: &mut Page<A>,
    one: &Run<'_, A>,
    other: &Run<'_, A>,
    count: usize,
) {
    if are_same(one, other, count) {
        return;
    }
    let number = count.saturating_add(1);
    page.mark("<div class=\"two\">\n");
    add_card(page, one, "run 1", number);
    add_card(page, other, "run 2", number);
    page.mark("</div>\n");
}
