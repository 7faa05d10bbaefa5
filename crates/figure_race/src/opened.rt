//! What the bars of a lane open: the calls that the picture folds, in sentences.

use crate::bars::calls_word;
use crate::lane::{Folded, Lane};
use Piece::{Mark, Num};
use figure_words::{Page, Piece, add_sentence};
use std::alloc::Allocator;
use trace_read::{Event, Trap};

// How many calls of each bar are described.
const MOST: usize = 20;

// The sentence of a call.
fn add_item<A: Allocator + Copy>(
    page: &mut Page<A>,
    lane: &Lane<'_, '_, A>,
    event: &Event,
    trap: &Trap,
) {
    page.add(&[
        Mark("<li><span class=\"note\">"),
        Num(event.number),
        Mark("</span> "),
    ]);
    add_sentence(page, lane.run(), event, trap);
    page.mark("</li>\n");
}

// The calls that are folded so; returns how many are described.
fn add_items<A: Allocator + Copy>(
    page: &mut Page<A>,
    lane: &Lane<'_, '_, A>,
    folded: Folded,
) -> usize {
    let first = lane.first_shown();
    let mut shown: usize = 0;
    for event in lane.events() {
        if let Some(trap) = &event.trap {
            let has_room = shown < MOST && page.size() < lane.side.most;
            if has_room && lane.is_folded(event, first, folded) {
                shown = shown.saturating_add(1);
                add_item(page, lane, event, trap);
            }
        }
    }
    shown
}

// The list of so many calls, below some words.
fn add_list<A: Allocator + Copy>(
    page: &mut Page<A>,
    lane: &Lane<'_, '_, A>,
    folded: Folded,
    count: usize,
) {
    if count == 0 {
        return;
    }
    page.mark(match folded {
        Folded::Early => "<p class=\"note\">Before the calls in the picture:</p>\n<ol>\n",
        Folded::Late => "<p class=\"note\">Between these calls, and behind them:</p>\n<ol>\n",
    });
    let shown = add_items(page, lane, folded);
    page.mark("</ol>\n");
    let more = count.saturating_sub(shown);
    if more > 0 {
        page.add(&[
            Mark("<p class=\"note\">and "),
            Num(more),
            Mark(calls_word(more)),
            Mark(" more, in the table below</p>\n"),
        ]);
    }
}

/// The calls of a lane that the picture folds, so many before those that it shows, and so many others.
pub(crate) fn add_opened<A: Allocator + Copy>(
    page: &mut Page<A>,
    lane: &Lane<'_, '_, A>,
    (early, late): (usize, usize),
) {
    page.mark("<div class=\"opened\">\n");
    add_list(page, lane, Folded::Early, early);
    add_list(page, lane, Folded::Late, late);
    page.mark("</div>\n");
}
