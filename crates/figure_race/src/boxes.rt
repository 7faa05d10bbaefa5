//! The boxes of a lane: the calls that the picture shows, each in its column, over the line of the process.

use crate::deeds::{add_result, add_verb};
use crate::lane::Lane;
use crate::picked::{Grid, Shown};
use Piece::{Mark, Num};
use figure_strips::{add_line, add_rect, add_text, begin_text, outcome_class};
use figure_words::{Page, Piece, call_name};
use std::alloc::Allocator;
use trace_read::Trap;

/// How wide the bar before the columns is with what is left free behind it, how wide a column is, and how wide the bar behind them.
pub(crate) const BAR: usize = 132;

pub(crate) const COLUMN: usize = 138;

pub(crate) const REST: usize = 96;

/// How high a lane is, and where a box of it begins.
pub(crate) const HIGH: usize = 76;

pub(crate) const TOP: usize = 12;

// How high a box is, and how much narrower than its column.
const BOX: usize = 58;

const SPACE: usize = 8;

// How far the corners of a diamond are from its middle.
const DIAMOND: usize = 9;

/// Where a column begins.
pub(crate) fn left_of(column: usize) -> usize {
    column.saturating_mul(COLUMN).saturating_add(BAR)
}

/// How wide a lane is.
pub(crate) fn width_of(grid: Grid) -> usize {
    left_of(grid.columns()).saturating_add(REST)
}

// The middle of a column.
fn middle_of(column: usize) -> usize {
    left_of(column).saturating_add(COLUMN / 2)
}

/// The column of the calls that decide, from the top of the lane to its end.
pub(crate) fn add_column<A: Allocator>(page: &mut Page<A>, grid: Grid) {
    let corner = (left_of(grid.before).saturating_sub(SPACE / 2), 0);
    add_rect(page, "decides", corner, (COLUMN, HIGH));
}

// A diamond at the top of a box with this middle.
fn add_diamond<A: Allocator>(page: &mut Page<A>, class: &'static str, middle: usize) {
    page.fill(
        "<path class=\"%\" d=\"M% %l% %l-% %l-% -%z\"/>",
        &[
            Mark(class),
            Num(middle),
            Num(TOP.saturating_sub(DIAMOND)),
            Num(DIAMOND),
            Num(DIAMOND),
            Num(DIAMOND),
            Num(DIAMOND),
            Num(DIAMOND),
            Num(DIAMOND),
        ],
    );
}

// The frame of a box that begins there: its corners are round where it is of the second of the two.
fn add_frame<A: Allocator>(page: &mut Page<A>, class: &'static str, left: usize, is_first: bool) {
    page.fill(
        "<rect class=\"%\" x=\"%\" y=\"%\" width=\"%\" height=\"%\" rx=\"%\"/>",
        &[
            Mark(class),
            Num(left),
            Num(TOP),
            Num(COLUMN - SPACE),
            Num(BOX),
            Num(if is_first { 0 } else { 12 }),
        ],
    );
}

// What stands in a box with this middle.
fn add_box_text<A: Allocator + Copy>(
    page: &mut Page<A>,
    lane: &Lane<'_, '_, A>,
    trap: &Trap,
    (middle, number): (usize, usize),
) {
    begin_text(page, "call", (middle, TOP + 22));
    add_verb(page, lane.run(), trap);
    page.mark("</text>");
    begin_text(page, outcome_class(trap), (middle, TOP + 37));
    add_result(page, lane.run(), trap);
    page.mark("</text>");
    let place = (middle, TOP + 52);
    add_text(page, "small faint", place, &[Mark("event "), Num(number)]);
}

// The box of a call.
fn add_box<A: Allocator + Copy>(
    page: &mut Page<A>,
    lane: &Lane<'_, '_, A>,
    shown: &Shown<'_>,
    trap: &Trap,
    later: usize,
) {
    let number = shown.event.number;
    let middle = middle_of(shown.column).saturating_sub(SPACE / 2);
    let is_turn = shown.column == lane.grid.before;
    page.fill(
        "<g><title>event %, process %: %</title>",
        &[
            Num(number),
            Num(lane.process.pid as usize),
            Mark(call_name(trap.call)),
        ],
    );
    let class = if is_turn { "body turned" } else { "body" };
    add_frame(page, class, left_of(shown.column), lane.is_first);
    add_box_text(page, lane, trap, (middle, number));
    if is_turn {
        add_diamond(page, "tip", middle);
    } else if number == later {
        add_diamond(page, "later", middle);
    }
    page.mark("</g>");
}

/// The boxes of a lane.
pub(crate) fn add_boxes<A: Allocator + Copy>(page: &mut Page<A>, lane: &Lane<'_, '_, A>) {
    let later = lane.side.later();
    for shown in lane.shown {
        if shown.event.process == lane.process {
            if let Some(trap) = &shown.event.trap {
                add_box(page, lane, shown, trap, later);
            }
        }
    }
}

// Where the line of a lane ends: behind the last column of a call before its process's end, or at the lane's end.
fn line_end<A: Allocator>(lane: &Lane<'_, '_, A>) -> usize {
    let ended = lane.ended();
    let behind = lane.shown.iter().find(|shown| shown.event.number > ended);
    match behind {
        Some(shown) => left_of(shown.column).saturating_sub(SPACE / 2),
        None => width_of(lane.grid).saturating_sub(SPACE),
    }
}

/// The line of a lane's process, and where it ends, if calls are shown behind that.
pub(crate) fn add_life<A: Allocator>(page: &mut Page<A>, lane: &Lane<'_, '_, A>) {
    let end = line_end(lane);
    add_line(page, "alive", (0, end), TOP + BOX / 2);
    if end < left_of(lane.grid.columns()) {
        let place = (end.saturating_add(4), TOP + BOX / 2 + 4);
        add_text(page, "small left faint", place, &[Mark("has ended")]);
    }
}
