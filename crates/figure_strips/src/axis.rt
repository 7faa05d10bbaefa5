//! The numbers of events above a strip.

use crate::geometry::{Fold, Window};
use crate::labels::add_text;
use crate::shapes::{add_rect, add_upright};
use Piece::{Mark, Num};
use figure_words::{Page, Piece};
use std::alloc::Allocator;

// Which events a fold has, above the strip, and what stands behind them.
fn add_fold_label<A: Allocator>(page: &mut Page<A>, window: Window<'_>, fold: Fold, height: usize) {
    let (left, right) = (window.left(fold.first), window.right(fold.first));
    let wide = right.saturating_sub(left);
    add_rect(page, "shade", (left, 0), (wide, height));
    let place = (window.middle(fold.first), 14);
    let last = fold.past.saturating_sub(1);
    let text = [Num(fold.first), Mark("–"), Num(last)];
    add_text(page, "small faint", place, &text);
}

// The same of each fold.
fn add_fold_labels<A: Allocator>(page: &mut Page<A>, window: Window<'_>, height: usize) {
    for fold in window.folds {
        add_fold_label(page, window, *fold, height);
    }
}

// The number of an event, and a line down from it.
fn add_number<A: Allocator>(page: &mut Page<A>, window: Window<'_>, event: usize, height: usize) {
    let middle = window.middle(event);
    add_upright(page, "grid", middle, (18, height));
    let (class, at) = if event == window.first {
        ("small left faint", 0)
    } else {
        ("small faint", middle)
    };
    add_text(page, class, (at, 14), &[Num(event)]);
}

/// The numbers of the events above a strip, and lines down from every tenth.
pub fn add_axis<A: Allocator>(page: &mut Page<A>, window: Window<'_>, height: usize) {
    add_fold_labels(page, window, height);
    for event in window.first..window.past {
        let is_named = event % 10 == 0 || (event == window.first && event % 10 < 9);
        if is_named && window.fold_of(event).is_none() {
            add_number(page, window, event, height);
        }
    }
}
