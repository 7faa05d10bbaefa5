//! The picture of two runs: below each other, and in each a lane for each of the two processes, with their calls on what they share
//! from left to right. Both are aligned at the calls that decide.

use crate::bars::add_bars;
use crate::boxes::{HIGH, add_boxes, add_column, add_life, width_of};
use crate::lane::{Folded, Lane};
use crate::opened::add_opened;
use crate::picked::{Grid, Shown, shown_of};
use crate::side::Side;
use Piece::{Mark, Num, Short};
use figure_words::{Page, Piece, add_command, add_place};
use std::alloc::{AllocError, Allocator};
use trace_read::Process;

// How many columns a command takes, and what a run prints.
const ROOM: usize = 40;

const PRINTED: usize = 60;

// The name of a lane: the command of its process, its place in the script, and its number.
fn add_name<A: Allocator + Copy>(page: &mut Page<A>, lane: &Lane<'_, '_, A>) {
    if let Some(event) = lane.named() {
        page.mark("<span class=\"who\">");
        add_command(page, lane.run(), event, ROOM);
        page.mark(" <span class=\"note\">");
        add_place(page, lane.run(), event);
        page.mark("</span></span>\n");
    }
}

// What a lane says to who can't see it.
fn add_title<A: Allocator>(page: &mut Page<A>, name: &'static str, (early, late): (usize, usize)) {
    page.add(&[
        Mark("<title>"),
        Mark(name),
        Mark("; calls before: "),
        Num(early),
        Mark(", others: "),
        Num(late),
        Mark("; the words below the picture tell of the rest</title>"),
    ]);
}

// The picture of a lane.
fn add_drawing<A: Allocator + Copy>(
    page: &mut Page<A>,
    lane: &Lane<'_, '_, A>,
    name: &'static str,
    counts: (usize, usize),
) {
    let wide = width_of(lane.grid);
    page.fill(
        "<svg role=\"img\" class=\"%\" viewBox=\"0 0 % %\" width=\"%\" height=\"%\">",
        &[
            Mark(if lane.is_first { "h0" } else { "h5" }),
            Num(wide),
            Num(HIGH),
            Num(wide),
            Num(HIGH),
        ],
    );
    add_title(page, name, counts);
    add_column(page, lane.grid);
    add_life(page, lane);
    add_bars(page, lane, counts);
    add_boxes(page, lane);
    page.mark("</svg>");
}

// A lane, which opens where it folds calls.
fn add_lane<A: Allocator + Copy>(page: &mut Page<A>, lane: &Lane<'_, '_, A>, name: &'static str) {
    let counts = (lane.count(Folded::Early), lane.count(Folded::Late));
    let (early, late) = counts;
    if early == 0 && late == 0 {
        page.mark("<div class=\"lane\">");
        add_name(page, lane);
        add_drawing(page, lane, name, counts);
        page.mark("</div>\n");
        return;
    }
    page.mark("<details class=\"lane\"><summary>");
    add_name(page, lane);
    add_drawing(page, lane, name, counts);
    page.mark("</summary>\n");
    add_opened(page, lane, counts);
    page.mark("</details>\n");
}

// The lane of one of the two processes, if the run has it.
fn add_actor<'p, 't, A: Allocator + Copy>(
    page: &mut Page<A>,
    (side, grid): (&'p Side<'p, 't, A>, Grid),
    shown: &'p [Shown<'t>],
    (process, is_first): (Option<Process>, bool),
    name: &'static str,
) {
    match process {
        None => page.mark("<p class=\"note\">The other process isn’t in this run.</p>\n"),
        Some(process) => {
            let lane = Lane {
                side,
                shown,
                grid,
                process,
                is_first,
            };
            add_lane(page, &lane, name)
        }
    }
}

// What a run prints, behind its name.
fn add_heading<A: Allocator>(page: &mut Page<A>, side: &Side<'_, '_, A>, name: &'static str) {
    let trace = side.run.trace;
    let out = trace.text(trace.end.out);
    page.add(&[Mark("<h3>"), Mark(name)]);
    if out.is_empty() {
        page.mark(" <span class=\"note\">prints nothing</span></h3>\n");
    } else {
        page.add(&[
            Mark(" <span class=\"note\">prints</span> <code>“"),
            Short(out, PRINTED),
            Mark("”</code></h3>\n"),
        ]);
    }
}

// One of the two runs.
fn add_run<A: Allocator + Copy>(
    alloc: A,
    page: &mut Page<A>,
    side: &Side<'_, '_, A>,
    grid: Grid,
    name: &'static str,
) -> Result<(), AllocError> {
    let shown = shown_of(alloc, side, grid)?;
    let (first, second) = side.actors;
    add_heading(page, side, name);
    add_actor(page, (side, grid), shown.as_slice(), (first, true), name);
    add_actor(page, (side, grid), shown.as_slice(), (second, false), name);
    if side.call.is_none() {
        page.mark("<p class=\"note\">◆ There is no such call in this run.</p>\n");
    }
    Ok(())
}

/// The picture of two runs.
///
/// `AllocError` where memory is refused.
pub(crate) fn add_picture<A: Allocator + Copy>(
    alloc: A,
    page: &mut Page<A>,
    one: &Side<'_, '_, A>,
    other: &Side<'_, '_, A>,
) -> Result<(), AllocError> {
    let grid = Grid::of(one, other);
    page.mark("<div class=\"picture\">\n");
    add_run(alloc, page, one, grid, "Run 1")?;
    add_run(alloc, page, other, grid, "Run 2")?;
    page.mark("</div>\n");
    Ok(())
}
