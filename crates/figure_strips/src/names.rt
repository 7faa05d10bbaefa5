//! The names at the left of a strip: of its lanes, its bands, its files and its lines of output.

use crate::geometry::{BAND, FILE, LETTER, NAMES, Row};
use crate::labels::{add_text, begin_text};
use crate::sheet::{Sheet, begin_names};
use crate::strip::Strip;
use Piece::{Mark, Num, Pipe, Short};
use figure_words::{Page, Piece, Run, add_doing};
use run_figure::Band;
use std::alloc::Allocator;
use trace_read::Part;

// By how much a lane's name is set in for each process above it, and for how many at most.
const INDENT: usize = 10;

const MOST_INDENTS: usize = 6;

// How many columns the name of a file takes.
const NAME_ROOM: usize = 24;

// The name of a lane.
fn add_lane_name<A: Allocator + Copy>(page: &mut Page<A>, run: &Run<'_, A>, row: &Row) {
    let set_in = row.life.depth.min(MOST_INDENTS) * INDENT;
    let room = NAMES.saturating_sub(set_in).saturating_sub(20) / (LETTER + 1);
    let pid = row.life.lane.process.pid;
    begin_text(page, "name", (set_in, row.middle().saturating_add(4)));
    page.fill("<tspan class=\"pid\">%</tspan> ", &[Num(pid as usize)]);
    match &row.life.doing {
        Some(doing) => add_doing(page, run, doing, room),
        None => page.mark(if pid == 0 { "init" } else { "sh" }),
    }
    page.mark("</text>");
}

// The names of the lanes.
fn add_lane_names<A: Allocator + Copy>(page: &mut Page<A>, run: &Run<'_, A>, rows: &[Row]) {
    for row in rows {
        add_lane_name(page, run, row);
    }
}

// What stands beside the band of a pipe: its name and its maker, its ends, and how much it holds.
const BAND_NAME: &str = "<text class=\"faint\" x=\"0\" y=\"%\">write end held by</text>\
<text class=\"name\" x=\"0\" y=\"%\"><tspan class=\"pid\">pipe %</tspan> made by %</text>\
<text class=\"faint\" x=\"%\" y=\"%\">512</text>\
<text class=\"faint\" x=\"%\" y=\"%\">0</text>\
<text class=\"faint\" x=\"0\" y=\"%\">read end held by</text>";

// The name of the band of the pipe with this place.
fn add_band_name<A: Allocator>(page: &mut Page<A>, pipe: usize, maker: u8, top: usize) {
    page.fill(
        BAND_NAME,
        &[
            Num(top.saturating_add(16)),
            Num(top.saturating_add(42)),
            Pipe(pipe),
            Num(maker as usize),
            Num(NAMES - 26),
            Num(top.saturating_add(28)),
            Num(NAMES - 14),
            Num(top.saturating_add(56)),
            Num(top.saturating_add(70)),
        ],
    );
}

// The names of the bands.
fn add_band_names<A: Allocator>(
    page: &mut Page<A>,
    run: &Run<'_, A>,
    bands: &[Band],
    below: usize,
) {
    let mut top = below;
    for band in bands {
        add_band_name(page, run.pipe(band.pipe), band.maker.pid, top);
        top = top.saturating_add(BAND);
    }
}

// The names of the files that have a band.
fn add_file_names<A: Allocator>(
    page: &mut Page<A>,
    run: &Run<'_, A>,
    files: &[Part],
    below: usize,
) {
    let mut top = below;
    for name in files {
        begin_text(page, "name", (0, top.saturating_add(19)));
        page.fill(
            "<tspan class=\"pid\">file %</tspan></text>",
            &[Short(run.trace.text(*name), NAME_ROOM)],
        );
        top = top.saturating_add(FILE);
    }
}

// The name of a line of output, if the line is there.
fn add_line_name<A: Allocator>(page: &mut Page<A>, is_there: bool, name: &'static str, top: usize) {
    if !is_there {
        return;
    }
    add_text(page, "name", (0, top.saturating_add(16)), &[Mark(name)]);
}

/// The names at the left of a strip.
pub fn add_names<A: Allocator + Copy>(
    page: &mut Page<A>,
    run: &Run<'_, A>,
    strip: &Strip<'_, A>,
    sheet: Sheet,
) {
    begin_names(page, sheet, strip.height);
    page.mark("<text class=\"faint\" x=\"0\" y=\"14\">event</text>");
    add_lane_names(page, run, strip.rows.as_slice());
    add_band_names(page, run, strip.bands.as_slice(), strip.below);
    add_file_names(page, run, strip.files.as_slice(), strip.file_top());
    add_line_name(page, strip.has_output, "output", strip.output_top());
    add_line_name(page, strip.has_messages, "messages", strip.message_top());
}
