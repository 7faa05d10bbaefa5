//! The boxes of a strip: where processes run, what they call, and what that came to.

use crate::geometry::{CAP, LETTER, Row, Window};
use crate::labels::{add_text, begin_text};
use crate::outcomes::{add_outcome, outcome_class};
use crate::shapes::add_rect;
use crate::strip::row_of;
use Piece::{Mark, Num};
use figure_words::{Page, Piece, Run, call_name, events_of};
use std::alloc::Allocator;
use trace_read::{Event, Trap};

// Where a box is.
#[derive(Clone, Copy)]
struct Place {
    left: usize,
    wide: usize,
    top: usize,
    high: usize,
}

impl Place {
    // The box on a lane between the edges of two columns.
    fn between(row: &Row, left: usize, right: usize) -> Place {
        let left = left.saturating_add(1);
        Place {
            left,
            wide: right.saturating_sub(left),
            top: row.top.saturating_add(3),
            high: row.height.saturating_sub(6),
        }
    }

    fn middle(self) -> usize {
        self.left.saturating_add(self.wide / 2)
    }
}

// The name of the hart on a box, where there are several.
fn add_cap<A: Allocator>(page: &mut Page<A>, (harts, hart): (u8, u8), place: Place) {
    if harts < 2 {
        return;
    }
    let word = if place.wide >= 7 * LETTER {
        "hart "
    } else {
        ""
    };
    let corner = (place.left, place.top);
    add_rect(page, "cap", corner, (place.wide, CAP));
    let at = (place.middle(), place.top.saturating_add(10));
    add_text(page, "cap", at, &[Mark(word), Num(hart as usize)]);
}

// The frame of a box.
fn add_body<A: Allocator>(page: &mut Page<A>, place: Place) {
    let corner = (place.left, place.top);
    add_rect(page, "body", corner, (place.wide, place.high));
}

// What stands in a box, below a place: the call, and what it came to.
fn add_box_text<A: Allocator>(
    page: &mut Page<A>,
    run: &Run<'_, A>,
    trap: &Trap,
    (middle, wide, top): (usize, usize, usize),
) {
    let name = Mark(call_name(trap.call));
    add_text(page, "call", (middle, top.saturating_add(12)), &[name]);
    let below = (middle, top.saturating_add(24));
    begin_text(page, outcome_class(trap), below);
    add_outcome(page, run, trap, wide / LETTER);
    page.mark("</text></g>");
}

// What a box says to who points at it, or can't see it.
fn add_box_title<A: Allocator>(
    page: &mut Page<A>,
    hart: u8,
    number: usize,
    pid: u8,
    name: &'static str,
) {
    let hart = hart as usize;
    page.fill(
        "<g class=\"box h%\"><title>event %, hart %, process %: %</title>",
        &[
            Num(hart),
            Num(number),
            Num(hart),
            Num(pid as usize),
            Mark(name),
        ],
    );
}

// The box of a call on a lane: from the event by which the process began to run to that of its call.
fn place_of(window: Window<'_>, row: &Row, from: usize, to: usize) -> Place {
    let from = match window.fold_of(from) {
        Some(fold) => fold.past,
        None => from,
    };
    let right = window.right(to).saturating_sub(1);
    Place::between(row, window.left(from), right)
}

// The box of a call.
fn add_box<A: Allocator>(
    page: &mut Page<A>,
    run: &Run<'_, A>,
    (event, trap): (&Event, &Trap),
    place: Place,
) {
    let harts = run.trace.head.harts;
    add_box_title(
        page,
        event.hart,
        event.number,
        event.process.pid,
        call_name(trap.call),
    );
    add_body(page, place);
    add_cap(page, (harts, event.hart), place);
    let cap = if harts > 1 { CAP } else { 0 };
    let top = place.top.saturating_add(cap);
    add_box_text(page, run, trap, (place.middle(), place.wide, top));
}

// Whether a call among these events ends what the event of this number began.
fn is_ended(events: &[Event], number: usize) -> bool {
    for event in events {
        if let Some(trap) = &event.trap {
            if trap.from == number {
                return true;
            }
        }
    }
    false
}

// A box that goes on behind the strip.
fn add_open_box<A: Allocator>(page: &mut Page<A>, harts: u8, event: &Event, place: Place) {
    let hart = event.hart as usize;
    page.fill(
        "<g class=\"box open h%\"><title>event %, hart %: process % runs on</title>",
        &[
            Num(hart),
            Num(event.number),
            Num(hart),
            Num(event.process.pid as usize),
        ],
    );
    add_body(page, place);
    add_cap(page, (harts, event.hart), place);
    page.mark("</g>");
}

// The box of an event on its lane; none of one that a later call of the strip ends.
fn add_event_box<A: Allocator>(
    page: &mut Page<A>,
    run: &Run<'_, A>,
    window: Window<'_>,
    row: &Row,
    event: &Event,
) {
    match &event.trap {
        Some(trap) => {
            let place = place_of(window, row, trap.from, event.number);
            add_box(page, run, (event, trap), place)
        }
        None => {
            if is_ended(
                events_of(run.trace, event.number, window.past),
                event.number,
            ) {
                return;
            }
            let place = Place::between(row, window.left(event.number), window.end());
            add_open_box(page, run.trace.head.harts, event, place)
        }
    }
}

/// The boxes of a strip.
pub fn add_boxes<A: Allocator>(
    page: &mut Page<A>,
    run: &Run<'_, A>,
    window: Window<'_>,
    rows: &[Row],
) {
    for event in events_of(run.trace, window.first, window.past) {
        if let Some(row) = row_of(rows, event.process) {
            if window.fold_of(event.number).is_none() {
                add_event_box(page, run, window, row, event);
            }
        }
    }
}
