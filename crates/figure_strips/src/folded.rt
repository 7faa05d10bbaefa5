//! The calls that are folded in a strip, as one box a process.

use crate::geometry::{Row, Window};
use crate::labels::add_text;
use crate::shapes::add_rect;
use Piece::{Mark, Num};
use figure_words::{Page, Piece, Run, events_of};
use std::alloc::Allocator;
use trace_read::{Call, Event, Process};

// How many of the events are reads of a process, and how many are its writes.
fn calls_in(events: &[Event], process: Process) -> (usize, usize) {
    let (mut reads, mut writes): (usize, usize) = (0, 0);
    for event in events {
        if event.process == process {
            match &event.trap {
                Some(trap) if matches!(trap.call, Call::Read(_, _)) => {
                    reads = reads.saturating_add(1);
                }
                Some(_) => writes = writes.saturating_add(1),
                None => {}
            }
        }
    }
    (reads, writes)
}

// A line of the box of folded calls.
fn add_fold_line<A: Allocator>(
    page: &mut Page<A>,
    count: usize,
    what: &'static str,
    place: (usize, usize),
) {
    if count == 0 {
        return;
    }
    add_text(page, "small", place, &[Num(count), Mark("× "), Mark(what)]);
}

// Where the lines of reads and of writes are, of a lane with this middle.
fn lines_at(middle: usize, (reads, writes): (usize, usize)) -> (usize, usize) {
    if reads > 0 && writes > 0 {
        (middle.saturating_sub(3), middle.saturating_add(10))
    } else {
        (middle.saturating_add(4), middle.saturating_add(4))
    }
}

// The calls of a process that are folded, of which the first event is this one, as one box.
fn add_fold_box<A: Allocator>(
    page: &mut Page<A>,
    window: Window<'_>,
    row: &Row,
    first: usize,
    (reads, writes): (usize, usize),
) {
    if reads == 0 && writes == 0 {
        return;
    }
    let left = window.left(first).saturating_add(1);
    let right = window.right(first).saturating_sub(1);
    let corner = (left, row.top.saturating_add(3));
    let size = (right.saturating_sub(left), row.height.saturating_sub(6));
    add_rect(page, "folded", corner, size);
    let middle = window.middle(first);
    let (high, low) = lines_at(row.middle(), (reads, writes));
    add_fold_line(page, reads, "read", (middle, high));
    add_fold_line(page, writes, "write", (middle, low));
}

/// The folds of a strip.
pub fn add_folds<A: Allocator>(
    page: &mut Page<A>,
    run: &Run<'_, A>,
    window: Window<'_>,
    rows: &[Row],
) {
    for fold in window.folds {
        let events = events_of(run.trace, fold.first, fold.past);
        for row in rows {
            let calls = calls_in(events, row.life.lane.process);
            add_fold_box(page, window, row, fold.first, calls);
        }
    }
}
