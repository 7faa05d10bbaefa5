//! What the events of a strip wrote, below it.

use crate::geometry::{Fold, LETTER, TIME, Window};
use crate::labels::{add_text, begin_text};
use Piece::{Num, Short};
use figure_words::{Page, Piece, Run, events_of, shown_width};
use std::alloc::Allocator;
use trace_read::{Event, Part};

// A stroke down from a place.
fn add_tick<A: Allocator>(page: &mut Page<A>, x: usize, y: usize) {
    page.fill("<path class=\"tick\" d=\"M% %v4\"/>", &[Num(x), Num(y)]);
}

// What an event wrote, below it; there is room up to the next that wrote too.
fn add_piece<A: Allocator>(
    page: &mut Page<A>,
    bytes: &[u8],
    class: &'static str,
    (left, right, top): (usize, usize, usize),
) {
    let room = right.saturating_sub(left).saturating_sub(4) / (LETTER + 1);
    add_tick(page, left, top.saturating_add(2));
    let place = (left, top.saturating_add(16));
    add_text(page, class, place, &[Short(bytes, room)]);
}

// What an event wrote to the output, or to the diagnostics.
fn part_of(event: &Event, is_output: bool) -> Option<Part> {
    match &event.trap {
        Some(trap) if is_output => trap.out,
        Some(trap) => trap.diag,
        None => None,
    }
}

/// All that the events of a strip wrote to the output, or to the diagnostics, from the last on.
pub fn add_written<A: Allocator>(
    page: &mut Page<A>,
    run: &Run<'_, A>,
    window: Window<'_>,
    top: usize,
    is_output: bool,
) {
    let class = if is_output { "out" } else { "out alert" };
    let mut right = window.end().max(TIME);
    for event in events_of(run.trace, window.first, window.past).iter().rev() {
        if let Some(part) = part_of(event, is_output) {
            if window.fold_of(event.number).is_none() {
                let left = window.middle(event.number);
                add_piece(page, run.trace.text(part), class, (left, right, top));
                right = left;
            }
        }
    }
}

// What events of a fold wrote to the output, in so many columns.
fn add_texts<A: Allocator>(page: &mut Page<A>, run: &Run<'_, A>, fold: Fold, columns: usize) {
    let mut room = columns;
    for event in events_of(run.trace, fold.first, fold.past) {
        if let Some(part) = part_of(event, true) {
            if room == 0 {
                break;
            }
            let bytes = run.trace.text(part);
            page.add(&[Short(bytes, room)]);
            room = room.saturating_sub(shown_width(bytes));
        }
    }
}

// What the events of a fold wrote to the output, below it.
fn add_folded<A: Allocator>(
    page: &mut Page<A>,
    run: &Run<'_, A>,
    fold: Fold,
    (left, right, low): (usize, usize, usize),
) {
    let room = right.saturating_sub(left).saturating_sub(8) / (LETTER + 1);
    begin_text(page, "out", (left.saturating_add(4), low));
    add_texts(page, run, fold, room);
    page.mark("</text>");
}

/// The output of the folds of a strip, in a line with this top.
pub fn add_fold_outputs<A: Allocator>(
    page: &mut Page<A>,
    run: &Run<'_, A>,
    window: Window<'_>,
    top: usize,
) {
    let low = top.saturating_add(16);
    for fold in window.folds {
        let (left, right) = (window.left(fold.first), window.right(fold.first));
        add_folded(page, run, *fold, (left, right, low));
    }
}
