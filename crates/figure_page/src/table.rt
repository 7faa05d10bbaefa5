//! The table of the events. Reads and writes that are like those before them are shown together, as phases.

use crate::phases::add_phase;
use Piece::{Mark, Num};
use figure_strips::{Fold, Span, phases_of};
use figure_words::{Page, Piece, Run, add_call, add_node, add_process, add_sentence, events_of};
use std::alloc::{AllocError, Allocator};
use trace_read::{Event, Trap};

// How many columns a command takes.
const ROOM: usize = 32;

// How many rows are seen before those that open.
const ROWS: usize = 200;

// What stands above the rows.
const HEAD: &str =
    "<thead><tr><th scope=\"col\">Event</th><th scope=\"col\">Since</th><th scope=\"col\">Hart</th><th scope=\"col\">Process</th><th scope=\"col\">Call</th><th scope=\"col\">What happened</th></tr></thead>\n<tbody>\n";

// How far a table has come: how many rows it has, in which phase it is, by its first event, and how many calls are left out.
#[derive(Clone, Copy)]
struct Progress {
    rows: usize,
    phase: usize,
    left: usize,
}

// The row of a call.
fn add_row<A: Allocator + Copy>(page: &mut Page<A>, run: &Run<'_, A>, event: &Event, trap: &Trap) {
    page.add(&[
        Mark("<tr><th scope=\"row\">"),
        Num(event.number),
        Mark("</th><td>"),
        Num(trap.from),
        Mark("</td><td>"),
        Num(event.hart as usize),
        Mark("</td><td>"),
    ]);
    add_process(page, run, event, ROOM);
    add_node(page, &event.doing);
    page.mark("</td><td>");
    page.mark("<code>");
    add_call(page, run, trap);
    page.mark("</code>");
    page.mark("</td><td>");
    add_sentence(page, run, event, trap);
    page.mark("</td></tr>\n");
}

// The phase that an event is in.
fn phase_at(phases: &[Fold], number: usize) -> Option<Fold> {
    let place = phases.partition_point(|phase| phase.past <= number);
    match phases.get(place) {
        Some(phase) if phase.has(number) => Some(*phase),
        _ => None,
    }
}

// Where a table has all rows that are seen, the others open.
fn open_rows<A: Allocator>(page: &mut Page<A>, before: usize, rows: usize) {
    if before < ROWS && rows >= ROWS {
        page.mark(
            "</tbody></table></div>\n<details><summary>The calls behind these</summary>\n<div class=\"wide\"><table>",
        );
        page.mark(HEAD);
    }
}

// The rows of a call: its own, those of its phase where it is the first of it, or none; none either once the page has so many bytes.
fn add_rows<A: Allocator + Copy>(
    alloc: A,
    page: &mut Page<A>,
    run: &Run<'_, A>,
    (event, trap, phase): (&Event, &Trap, Option<Fold>),
    (progress, most): (Progress, usize),
) -> Result<Progress, AllocError> {
    match phase {
        Some(phase) if phase.first == progress.phase => Ok(progress),
        _ if page.size() >= most => Ok(Progress {
            left: progress.left.saturating_add(1),
            ..progress
        }),
        Some(phase) => {
            let (rows, left) = add_phase(alloc, page, run, phase, most)?;
            Ok(Progress {
                rows: progress.rows.saturating_add(rows),
                phase: phase.first,
                left: progress.left.saturating_add(left),
            })
        }
        None => {
            add_row(page, run, event, trap);
            Ok(Progress {
                rows: progress.rows.saturating_add(1),
                ..progress
            })
        }
    }
}

// Ends a table, and says how many calls are left out of it.
fn end_table<A: Allocator>(page: &mut Page<A>, progress: Progress) {
    page.mark("</tbody></table></div>\n");
    if progress.left > 0 {
        page.add(&[
            Mark("<p class=\"note\"><b>The table ends here</b>: "),
            Num(progress.left),
            Mark(
                " more calls are left out. <code>--from</code> and <code>--to</code> draw others.</p>\n",
            ),
        ]);
    }
    if progress.rows >= ROWS {
        page.mark("</details>\n");
    }
}

/// The calls of these events, a row each, but those that are shown together; no row more once the page has so many bytes.
///
/// `AllocError` where memory is refused.
pub(crate) fn add_table<A: Allocator + Copy>(
    alloc: A,
    page: &mut Page<A>,
    run: &Run<'_, A>,
    span: Span,
    most: usize,
) -> Result<(), AllocError> {
    let phases = phases_of(alloc, run, (span.first, span.past))?;
    let mut progress = Progress {
        rows: 0,
        phase: 0,
        left: 0,
    };
    page.mark(
        "<div class=\"wide\"><table><caption>Each call, at the event at which it was carried out; its process ran since the event beside it. Reads and writes like those before them are told together.</caption>\n",
    );
    page.mark(HEAD);
    for event in events_of(run.trace, span.first, span.past) {
        if let Some(trap) = &event.trap {
            let before = progress.rows;
            let phase = phase_at(phases.as_slice(), event.number);
            progress = add_rows(alloc, page, run, (event, trap, phase), (progress, most))?;
            open_rows(page, before, progress.rows);
        }
    }
    end_table(page, progress);
    Ok(())
}
