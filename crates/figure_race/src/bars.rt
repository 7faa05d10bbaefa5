//! The bars of a lane: the calls that the picture folds, before those that it shows and behind them.

use crate::boxes::{BAR, HIGH, REST, TOP, left_of};
use crate::lane::{Folded, Lane};
use Piece::{Mark, Num};
use figure_strips::{add_rect, add_text, begin_text};
use figure_words::{Page, Piece};
use std::alloc::Allocator;
use trace_read::{Call, Event, Reply, State};

// How many of the descriptors that a process sets up are shown.
const MOST_ENDS: usize = 2;

// How far a bar's words are from its left end, and how far apart its lines are.
const SET_IN: usize = 8;

const LINE: usize = 15;

/// How many calls there are, in words.
pub(crate) fn calls_word(count: usize) -> &'static str {
    if count == 1 { " call" } else { " calls" }
}

// Which descriptor a call made the same as which: the new one, and the other.
fn doubled(event: &Event) -> Option<(usize, usize)> {
    let trap = event.trap?;
    match (trap.call, trap.state) {
        (Call::Dup(fd), State::Runnable(Reply::Fd(new))) => Some((fd, new)),
        _ => None,
    }
}

// Whether a call before those that are shown sets up a descriptor.
fn sets_up<A: Allocator>(lane: &Lane<'_, '_, A>) -> bool {
    let first = lane.first_shown();
    let mut events = lane.events().iter();
    events.any(|event| { doubled(event).is_some() && lane.is_folded(event, first, Folded::Early) })
}

// Which descriptors the calls before set up: of each which one becomes which.
fn add_ends<A: Allocator>(page: &mut Page<A>, lane: &Lane<'_, '_, A>) {
    let first = lane.first_shown();
    let mut shown: usize = 0;
    for event in lane.events() {
        if let Some((fd, new)) = doubled(event) {
            if shown < MOST_ENDS && lane.is_folded(event, first, Folded::Early) {
                page.mark(if shown > 0 { ", " } else { "" });
                page.add(&[Num(fd), Mark(" to "), Num(new)]);
                shown = shown.saturating_add(1);
            }
        }
    }
    page.mark(":");
}

// The mark of a bar that is closed or open, and its first word.
fn add_first_line<A: Allocator>(page: &mut Page<A>, x: usize, word: &'static str) {
    let low = TOP + 22;
    add_text(page, "left shut", (x, low), &[Mark("▸ "), Mark(word)]);
    add_text(page, "left ajar", (x, low), &[Mark("▾ "), Mark(word)]);
}

// How many calls a bar folds.
fn add_count<A: Allocator>(page: &mut Page<A>, x: usize, low: usize, count: usize) {
    add_text(
        page,
        "left",
        (x, low),
        &[Num(count), Mark(calls_word(count))],
    );
}

// The bar of the calls before those that are shown.
fn add_early<A: Allocator>(page: &mut Page<A>, lane: &Lane<'_, '_, A>, count: usize) {
    let size = (BAR - SET_IN, HIGH - TOP - 6);
    add_rect(page, "folded", (0, TOP), size);
    let second = TOP + 22 + LINE;
    let meant = lane.count_meant();
    if meant > 0 {
        add_first_line(page, SET_IN, "before:");
        add_count(page, SET_IN, second, count);
        let words = [Num(meant), Mark(" like these")];
        add_text(page, "left", (SET_IN, second + LINE), &words);
        return;
    }
    if !sets_up(lane) {
        add_first_line(page, SET_IN, "gets ready:");
        add_count(page, SET_IN, second, count);
        return;
    }
    add_first_line(page, SET_IN, "sets up");
    begin_text(page, "left", (SET_IN, second));
    add_ends(page, lane);
    page.mark("</text>");
    add_count(page, SET_IN, second + LINE, count);
}

// The bar of the calls that are neither shown nor before.
fn add_late<A: Allocator>(page: &mut Page<A>, lane: &Lane<'_, '_, A>, count: usize) {
    let left = left_of(lane.grid.columns());
    let size = (REST - SET_IN, HIGH - TOP - 6);
    add_rect(page, "folded", (left, TOP), size);
    let x = left.saturating_add(SET_IN);
    add_first_line(page, x, "also:");
    add_count(page, x, TOP + 22 + LINE, count);
}

/// The bars of a lane that folds so many calls before those that are shown, and so many others.
pub(crate) fn add_bars<A: Allocator>(
    page: &mut Page<A>,
    lane: &Lane<'_, '_, A>,
    (early, late): (usize, usize),
) {
    if early > 0 {
        add_early(page, lane, early);
    }
    if late > 0 {
        add_late(page, lane, late);
    }
}
