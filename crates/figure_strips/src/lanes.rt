//! The lanes of a strip: where processes are, run, sleep, end, and what goes from one to another.

use crate::boxes::add_boxes;
use crate::edges::add_edges;
use crate::folded::add_folds;
use crate::geometry::{Row, Window};
use crate::lives::{add_bars, add_life};
use figure_words::{Page, Run, events_of};
use std::alloc::Allocator;

// The lives of a strip's processes.
fn add_lives<A: Allocator>(page: &mut Page<A>, window: Window<'_>, rows: &[Row]) {
    for row in rows {
        add_life(page, window, row);
    }
}

// What goes from the processes of a strip's calls to others.
fn add_all_edges<A: Allocator>(
    page: &mut Page<A>,
    run: &Run<'_, A>,
    window: Window<'_>,
    rows: &[Row],
) {
    let bars = run.bars.as_slice();
    for event in events_of(run.trace, window.first, window.past) {
        if let Some(trap) = &event.trap {
            if window.fold_of(event.number).is_none() {
                let at = window.middle(event.number);
                add_edges(page, bars, rows, (event, trap), at);
            }
        }
    }
}

/// The lanes of a strip.
pub fn add_lanes<A: Allocator + Copy>(
    page: &mut Page<A>,
    run: &Run<'_, A>,
    window: Window<'_>,
    rows: &[Row],
) {
    add_lives(page, window, rows);
    add_bars(page, run, window, rows);
    add_all_edges(page, run, window, rows);
    add_boxes(page, run, window, rows);
    add_folds(page, run, window, rows);
}
