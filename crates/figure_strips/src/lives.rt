//! Lines along the lanes of a strip: where processes live, and where they sleep.

use crate::geometry::{LETTER, Row, Window};
use crate::labels::add_label;
use crate::shapes::{add_line, add_rect};
use crate::strip::row_of;
use Piece::{Mark, Num, Pipe};
use figure_words::{Page, Piece, Run, add_channel};
use run_figure::Bar;
use std::alloc::Allocator;
use trace_read::Channel;

// How high a bar is.
const BAR: usize = 14;

// Where the line of a process begins that is made by this event.
fn begin_of(window: Window<'_>, born: usize) -> usize {
    if window.has(born) && born != 0 {
        window.middle(born)
    } else {
        0
    }
}

// Where the line of a process ends that ends by this event.
fn end_of(window: Window<'_>, event: usize) -> usize {
    if window.has(event) {
        window.right(event)
    } else {
        window.left(event)
    }
}

// Where the line of a zombie ends that is taken out by this event.
fn gone_at(window: Window<'_>, event: usize) -> usize {
    if window.has(event) {
        window.middle(event)
    } else {
        window.left(event)
    }
}

/// The life of a process: it can run, and after its end it is a zombie until it is taken out.
pub fn add_life<A: Allocator>(page: &mut Page<A>, window: Window<'_>, row: &Row) {
    let from = begin_of(window, row.life.lane.process.born);
    let ended = end_of(window, row.life.ended);
    let gone = gone_at(window, row.life.gone);
    if from < ended {
        add_line(page, "alive", (from, ended), row.middle());
    }
    if ended < gone {
        add_line(page, "zombie", (ended, gone), row.middle());
    }
}

// The class of a bar.
fn bar_class(channel: Channel) -> &'static str {
    match channel {
        Channel::Children => "sleep children",
        Channel::PipeBytes(_) => "sleep bytes",
        Channel::PipeRoom(_) => "sleep room",
    }
}

// What a bar says before the pipe's name, at length or in short, and how many columns both take.
fn bar_words(channel: Channel, is_long: bool) -> (&'static str, usize) {
    match (channel, is_long) {
        (Channel::Children, true) => ("asleep until a child exits", 26),
        (Channel::Children, false) => ("child", 5),
        (Channel::PipeBytes(_), true) => ("asleep until it has bytes: pipe ", 33),
        (Channel::PipeBytes(_), false) => ("bytes ", 7),
        (Channel::PipeRoom(_), true) => ("asleep until it has room: pipe ", 33),
        (Channel::PipeRoom(_), false) => ("room ", 7),
    }
}

// What a bar says, if it is so wide.
fn add_bar_text<A: Allocator>(
    page: &mut Page<A>,
    run: &Run<'_, A>,
    channel: Channel,
    (left, wide, low): (usize, usize, usize),
) {
    if wide < 9 * LETTER {
        return;
    }
    let (words, columns) = bar_words(channel, wide >= 38 * LETTER);
    let place = (left.saturating_add(5), low);
    let name = match channel {
        Channel::Children => Mark(""),
        Channel::PipeBytes(pipe) | Channel::PipeRoom(pipe) => Pipe(run.pipe(pipe)),
    };
    add_label(page, "left", place, columns, &[Mark(words), name]);
}

// Where a bar begins and ends.
fn bar_ends(window: Window<'_>, bar: &Bar) -> (usize, usize) {
    let left = if window.has(bar.from) {
        window.right(bar.from)
    } else {
        0
    };
    match bar.to {
        Some(to) if window.has(to) => (left, window.middle(to)),
        _ => (left, window.end()),
    }
}

// What a bar says to who points at it, or can't see it.
fn add_bar_title<A: Allocator + Copy>(page: &mut Page<A>, run: &Run<'_, A>, bar: &Bar) {
    page.fill("<title>% sleeps ", &[Num(bar.process.pid as usize)]);
    add_channel(page, run, bar.channel);
    match bar.to {
        Some(to) => page.fill(
            ", from event % to event %</title>",
            &[Num(bar.from), Num(to)],
        ),
        None => page.fill(", from event % to the end</title>", &[Num(bar.from)]),
    }
}

// A sleep, on a lane with this middle.
fn add_bar<A: Allocator + Copy>(
    page: &mut Page<A>,
    run: &Run<'_, A>,
    window: Window<'_>,
    bar: &Bar,
    middle: usize,
) {
    let (left, right) = bar_ends(window, bar);
    let wide = right.saturating_sub(left);
    if wide == 0 {
        return;
    }
    page.mark("<g>");
    add_bar_title(page, run, bar);
    let corner = (left, middle.saturating_sub(BAR / 2));
    add_rect(page, bar_class(bar.channel), corner, (wide, BAR));
    let low = middle.saturating_add(4);
    add_bar_text(page, run, bar.channel, (left, wide, low));
    page.mark("</g>");
}

/// The sleeps of a strip.
pub fn add_bars<A: Allocator + Copy>(
    page: &mut Page<A>,
    run: &Run<'_, A>,
    window: Window<'_>,
    rows: &[Row],
) {
    for bar in run.bars.as_slice() {
        if window.meets(bar.from, bar.to.unwrap_or(usize::MAX)) {
            if let Some(row) = row_of(rows, bar.process) {
                add_bar(page, run, window, bar, row.middle());
            }
        }
    }
}
