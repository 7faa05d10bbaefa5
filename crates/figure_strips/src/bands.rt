//! The bands of a strip: how full each pipe is, and who holds its ends.

use crate::geometry::{BAND, FILL, Fold, LETTER, TIME, Window};
use crate::labels::{add_label, add_text};
use crate::shapes::{add_line, add_rect};
use crate::strip::{Strip, states_of};
use Piece::{Bits, Mark, Num};
use figure_words::{Page, Piece, Run, bits_width, events_of};
use std::alloc::{AllocError, Allocator};
use trace_read::{Object, PipeState, Reply, State, Trap};

// How many bytes a pipe holds.
const PIPE_SIZE: usize = 512;

// Where a band's parts are, below its top.
const WRITE_RAIL: usize = 12;

const FILL_TOP: usize = 20;

const READ_RAIL: usize = 66;

// How many columns it takes to say that an end is closed.
const CLOSED: usize = 19;

// How many decimal digits a number of at most three has.
fn digits(number: usize) -> usize {
    match number {
        0..=9 => 1,
        10..=99 => 2,
        _ => 3,
    }
}

// How high so many bytes in a pipe are drawn.
fn fill_height(held: usize) -> usize {
    let high = held.min(PIPE_SIZE) * FILL / PIPE_SIZE;
    if held > 0 && high == 0 { 1 } else { high }
}

// How far below a band's base the number of its bytes stands, which are drawn so high: above them, or in them.
fn number_line(base: usize, high: usize) -> usize {
    let low = base.saturating_sub(high).saturating_sub(2);
    if high > 14 {
        low.saturating_add(12)
    } else {
        low
    }
}

// How full a pipe is from one event to another.
fn add_fill<A: Allocator>(
    page: &mut Page<A>,
    held: usize,
    is_new: bool,
    (left, right, top): (usize, usize, usize),
) {
    let wide = right.saturating_sub(left);
    let high = fill_height(held);
    let base = top.saturating_add(FILL_TOP + FILL);
    if held > 0 {
        let corner = (left, base.saturating_sub(high));
        add_rect(page, "fill", corner, (wide, high));
    }
    if !is_new || wide < digits(held).saturating_add(1).saturating_mul(LETTER) {
        return;
    }
    let place = (left.saturating_add(2), number_line(base, high));
    add_text(page, "small left", place, &[Num(held)]);
}

// Who holds an end from one event to another.
fn add_rail<A: Allocator>(
    page: &mut Page<A>,
    bits: u64,
    is_new: bool,
    (left, right, at): (usize, usize, usize),
) {
    if bits == 0 || left >= right {
        return;
    }
    add_line(page, "rail", (left, right), at);
    let columns = bits_width(bits);
    let needed = columns.saturating_add(2).saturating_mul(LETTER);
    if !is_new || right.saturating_sub(left) < needed {
        return;
    }
    let place = (left.saturating_add(6), at.saturating_add(4));
    add_label(page, "small left", place, columns, &[Bits(bits)]);
}

// A cross where an end is closed.
fn add_cross<A: Allocator>(page: &mut Page<A>, end: &'static str, (left, at): (usize, usize)) {
    let left = left.saturating_sub(3).min(TIME - CLOSED * LETTER);
    let place = (left, at.saturating_add(4));
    let text = [Mark("× "), Mark(end), Mark(" end closed")];
    add_label(page, "small left alert", place, 1, &text);
}

// What of a pipe is to be shown: what is another than before, and all where the strip begins.
#[derive(Clone, Copy)]
struct News {
    held: bool,
    writers: bool,
    readers: bool,
}

// What of a state is to be shown, which is in the strip or before it.
fn news_of(before: Option<PipeState>, state: &PipeState, is_here: bool) -> News {
    match before {
        Some(before) if is_here => News {
            held: before.held != state.held,
            writers: before.writers != state.writers,
            readers: before.readers != state.readers,
        },
        _ => News {
            held: true,
            writers: true,
            readers: true,
        },
    }
}

// The ends of a pipe, and a cross where one was closed by the state's event, if that is in the strip.
fn add_ends<A: Allocator>(
    page: &mut Page<A>,
    state: &PipeState,
    news: News,
    (left, right, top): (usize, usize, usize),
    is_here: bool,
) {
    let low = top.saturating_add(WRITE_RAIL);
    add_rail(page, state.writers, news.writers, (left, right, low));
    if is_here && state.closes_write {
        add_cross(page, "write", (left, low));
    }
    let low = top.saturating_add(READ_RAIL);
    add_rail(page, state.readers, news.readers, (left, right, low));
    if is_here && state.closes_read {
        add_cross(page, "read", (left, low));
    }
}

// A pipe's state, from its event to the next one's.
fn add_state<A: Allocator>(
    page: &mut Page<A>,
    window: Window<'_>,
    (before, state): (Option<PipeState>, &PipeState),
    right: usize,
    top: usize,
) {
    let is_here = window.has(state.event);
    let left = if is_here {
        window.right(state.event)
    } else {
        0
    };
    let news = news_of(before, state, is_here);
    if left < right && (state.readers != 0 || state.writers != 0) {
        add_fill(page, state.held, news.held, (left, right, top));
    }
    add_ends(page, state, news, (left, right, top), is_here);
}

// Where a state ends in the strip: where the next one begins.
fn end_of(window: Window<'_>, next: Option<&PipeState>) -> usize {
    match next {
        Some(next) => window.right(next.event),
        None => window.end(),
    }
}

// The states of a pipe in the strip.
fn add_states<A: Allocator>(
    page: &mut Page<A>,
    window: Window<'_>,
    states: &[PipeState],
    top: usize,
) {
    let mut before = None;
    let mut next: usize = 1;
    for state in states {
        let right = end_of(window, states.get(next));
        add_state(page, window, (before, state), right, top);
        before = Some(*state);
        next = next.saturating_add(1);
    }
}

// What is shown of a call on a pipe: that it met the end, or was refused.
fn alert_of(trap: &Trap, pipe: usize) -> Option<&'static str> {
    match (trap.object, trap.state) {
        (Some(Object::PipeRead(name)), _) if name == pipe && trap.is_at_end => Some("EOF"),
        (Some(Object::PipeWrite(name)), State::Runnable(Reply::Refused)) if name == pipe => {
            Some("−1")
        }
        _ => None,
    }
}

// Marks the reads that met the end of the pipe, and the writes that were refused.
fn add_alerts<A: Allocator>(
    page: &mut Page<A>,
    run: &Run<'_, A>,
    window: Window<'_>,
    pipe: usize,
    top: usize,
) {
    let low = top.saturating_add(FILL_TOP + FILL / 2 + 4);
    for event in events_of(run.trace, window.first, window.past) {
        if let Some(trap) = &event.trap {
            if let Some(text) = alert_of(trap, pipe) {
                if window.fold_of(event.number).is_none() {
                    let place = (window.middle(event.number).saturating_sub(8), low);
                    let columns = if trap.is_at_end { 3 } else { 2 };
                    add_label(page, "small left alert", place, columns, &[Mark(text)]);
                }
            }
        }
    }
}

// The least and the most bytes that a pipe holds after events of a fold; `None` where none of them changes it.
fn range_in(states: &[PipeState], fold: Fold) -> Option<(usize, usize)> {
    let mut range = None;
    for state in states {
        if fold.has(state.event) {
            let (low, high) = range.unwrap_or((state.held, state.held));
            range = Some((low.min(state.held), high.max(state.held)));
        }
    }
    range
}

// Between which numbers of bytes a pipe is in a fold, in place of how full it is.
fn add_range<A: Allocator>(
    page: &mut Page<A>,
    window: Window<'_>,
    fold: Fold,
    (low, high): (usize, usize),
    top: usize,
) {
    let (left, right) = (window.left(fold.first), window.right(fold.first));
    let corner = (left, top.saturating_add(FILL_TOP - 2));
    let wide = right.saturating_sub(left);
    add_rect(page, "folded", corner, (wide, FILL + 2));
    let low_line = top.saturating_add(FILL_TOP + FILL / 2 + 4);
    let place = (window.middle(fold.first), low_line);
    add_text(page, "small", place, &[Num(low), Mark(" to "), Num(high)]);
}

// The same of each fold.
fn add_ranges<A: Allocator>(
    page: &mut Page<A>,
    window: Window<'_>,
    states: &[PipeState],
    top: usize,
) {
    for fold in window.folds {
        if let Some(range) = range_in(states, *fold) {
            add_range(page, window, *fold, range, top);
        }
    }
}

// The band of a pipe with these states.
fn add_band<A: Allocator>(
    page: &mut Page<A>,
    window: Window<'_>,
    states: &[PipeState],
    top: usize,
) {
    let base = top.saturating_add(FILL_TOP + FILL);
    add_line(page, "base", (0, window.end()), base);
    add_states(page, window, states, top);
    add_ranges(page, window, states, top);
}

/// The bands of a strip.
pub fn add_bands<A: Allocator + Copy>(
    alloc: A,
    page: &mut Page<A>,
    run: &Run<'_, A>,
    strip: &Strip<'_, A>,
) -> Result<(), AllocError> {
    let mut top = strip.below;
    for band in strip.bands.as_slice() {
        let states = states_of(alloc, run, strip.window, band.pipe)?;
        add_band(page, strip.window, states.as_slice(), top);
        add_alerts(page, run, strip.window, band.pipe, top);
        top = top.saturating_add(BAND);
    }
    Ok(())
}
