//! Why two runs differ: the two processes whose order decides, and their calls on what they share, in a sentence, a picture and words.

use crate::cause::{Cause, Pair, cause_of};
use crate::parting::add_where;
use crate::picture::add_picture;
use crate::side::{Side, add_before, add_behind, add_turn};
use crate::things::Thing;
use crate::twins::twins_of;
use Piece::{Mark, Num, Pipe, Short};
use figure_words::{Page, Piece, Run, add_command, add_sentence};
use std::alloc::{AllocError, Allocator};
use trace_read::{Event, Process};

// How many columns a name takes.
const ROOM: usize = 40;

// What the marks of the picture mean.
const MARKS: &str =
    "<p class=\"note\">Time goes from left to right, and each run has its two processes below each other. ◆ is the first call on it that comes in another order: both runs stand with it in the shaded column. ◇ is the other process’s next call on it, which comes later here. A dashed box folds other calls of its process: a click on it, or Enter, opens them.</p>\n";

// The place among the pipes of the one that a process made.
fn pipe_of<A: Allocator>(run: &Run<'_, A>, maker: Process) -> usize {
    let bands = run.bands.as_slice();
    match bands.iter().position(|band| band.maker == maker) {
        Some(place) => place,
        None => bands.len(),
    }
}

// What the two share, in words.
fn add_thing<A: Allocator>(page: &mut Page<A>, run: &Run<'_, A>, thing: Thing<'_>) {
    match thing {
        Thing::Out => page.mark("the output"),
        Thing::Diag => page.mark("the messages"),
        Thing::Table => page.mark("the table of processes"),
        Thing::File(name) => page.add(&[Mark("file <code>"), Short(name, ROOM), Mark("</code>")]),
        Thing::Pipe(maker) => page.add(&[Mark("pipe "), Pipe(pipe_of(run, maker))]),
    }
}

// Who comes first in a run, and what that call does.
fn add_first<A: Allocator + Copy>(page: &mut Page<A>, side: &Side<'_, '_, A>, name: &'static str) {
    page.add(&[Mark("<p><b>In "), Mark(name), Mark("</b> ")]);
    let Some(event) = side.call else {
        page.mark("there is no such call.</p>\n");
        return;
    };
    add_command(page, side.run, event, ROOM);
    page.add(&[
        Mark(" (process "),
        Num(event.process.pid as usize),
        Mark(") comes first at "),
    ]);
    add_thing(page, side.run, side.thing);
    if let Some(trap) = &event.trap {
        page.mark(": it ");
        add_sentence(page, side.run, event, trap);
    }
    page.mark(".</p>\n");
}

// The calls of both runs in words, side by side, aligned at the calls that decide.
fn add_words<A: Allocator + Copy>(
    page: &mut Page<A>,
    one: &Side<'_, '_, A>,
    other: &Side<'_, '_, A>,
) {
    page.mark(
        "<details class=\"words\"><summary>The same calls in words</summary>\n<div class=\"why\">\n<h3>Run 1</h3>\n<h3>Run 2</h3>\n",
    );
    add_before(page, one);
    add_before(page, other);
    add_turn(page, one);
    add_turn(page, other);
    add_behind(page, one);
    add_behind(page, other);
    page.mark("</div>\n</details>\n");
}

// The process of a call.
fn process_of(call: Option<&Event>) -> Option<Process> {
    Some(call?.process)
}

// The process of the first run that is one of the second.
fn back_of<A: Allocator>(pair: &Pair<'_, '_, A>, process: Option<Process>) -> Option<Process> {
    pair.back(process?)
}

// The process of the second run that is one of the first.
fn twin_of<A: Allocator>(pair: &Pair<'_, '_, A>, process: Option<Process>) -> Option<Process> {
    pair.twin(process?)
}

// A cause as each of both runs has it.
fn sides_of<'p, 't, A: Allocator>(
    pair: Pair<'p, 't, A>,
    cause: Cause<'t>,
    most: usize,
) -> (Side<'p, 't, A>, Side<'p, 't, A>) {
    let (first, second) = (process_of(cause.first), process_of(cause.second));
    let one = Side {
        run: pair.one,
        thing: cause.thing,
        actors: (first, back_of(&pair, second)),
        call: cause.first,
        most,
    };
    let other = Side {
        run: pair.other,
        thing: cause.other_thing,
        actors: (twin_of(&pair, first), second),
        call: cause.second,
        most,
    };
    (one, other)
}

// A cause in a sentence, a picture and words.
fn add_cause<A: Allocator + Copy>(
    alloc: A,
    page: &mut Page<A>,
    one: &Side<'_, '_, A>,
    other: &Side<'_, '_, A>,
) -> Result<(), AllocError> {
    add_first(page, one, "run 1");
    add_first(page, other, "run 2");
    page.mark("<h2>Who comes first at ");
    add_thing(page, one.run, one.thing);
    page.mark("</h2>\n");
    add_picture(alloc, page, one, other)?;
    page.mark(MARKS);
    add_words(page, one, other);
    Ok(())
}

/// Where two runs part that begin with so many same events, and why they differ, where the order of two calls of one thing does: who
/// comes first in each run, in a sentence, a picture of the calls of these two processes on that thing, and a list of them. No call more
/// is described in words once the page has so many bytes. Own.
///
/// `AllocError` where memory is refused.
pub fn add_why<'p, 't, A: Allocator + Copy>(
    alloc: A,
    page: &mut Page<A>,
    (one, other): (&'p Run<'t, A>, &'p Run<'t, A>),
    count: usize,
    most: usize,
) -> Result<(), AllocError> {
    add_where(page, one, other, count);
    let twins = twins_of(alloc, one, other)?;
    let pair = Pair {
        one,
        other,
        twins: twins.as_slice(),
    };
    match cause_of(alloc, pair, count.saturating_add(1))? {
        Some(cause) => {
            let (one, other) = sides_of(pair, cause, most);
            add_cause(alloc, page, &one, &other)?;
        }
        None => page.mark(
            "<p class=\"note\">No two calls on what processes share come in another order.</p>\n",
        ),
    }
    Ok(())
}
