//! The page of one run.

use crate::header::{add_facts, add_head};
use crate::story::add_story;
use crate::style::KEY;
use crate::table::add_table;
use Piece::{Mark, Num};
use figure_strips::{Bounds, Fold, Span, Window, add_strips_within, folds_of};
use figure_words::{Page, Piece, Run};
use std::alloc::{AllocError, Allocator};
use trace_read::Trace;

// How many bytes a page has when no row and no sentence more is begun, and at most with a strip more: so it stays below 400,000, since
// none of these, and nothing that has no limit, is as large as what is left.
const MOST: usize = 370_000;

/// How large a page may become by a part that gets so many tenths of what is left.
pub(crate) fn share<A: Allocator>(page: &Page<A>, tenths: usize) -> usize {
    let left = MOST.saturating_sub(page.size());
    page.size().saturating_add(left.saturating_mul(tenths) / 10)
}

// Says which events are left out, if some are.
pub(crate) fn add_left_out<A: Allocator>(page: &mut Page<A>, span: Span, events: usize) {
    let drawn = span.count();
    if drawn >= events {
        return;
    }
    if drawn == 0 {
        page.add(&[
            Mark("<p class=\"note\"><b>No event is drawn</b>: there are "),
            Num(events),
            Mark(", and <code>--from</code> and <code>--to</code> name none of them.</p>\n"),
        ]);
        return;
    }
    page.add(&[
        Mark("<p class=\"note\"><b>Events "),
        Num(span.first),
        Mark(" to "),
        Num(span.past.saturating_sub(1)),
        Mark(" of "),
        Num(events),
        Mark("</b>: the other "),
        Num(events.saturating_sub(drawn)),
        Mark(" are left out. <code>--from</code> and <code>--to</code> draw others.</p>\n"),
    ]);
}

// Says how many events are folded, if some are.
fn add_folded<A: Allocator>(page: &mut Page<A>, folds: &[Fold]) {
    let mut folded: usize = 0;
    for fold in folds {
        folded = folded.saturating_add(fold.count());
    }
    if folded == 0 {
        return;
    }
    page.add(&[
        Mark("<p class=\"note\"><b>"),
        Num(folded),
        Mark(
            " events are folded</b>, in shaded columns with how many there are: reads and writes like those before them. The table says what they moved.</p>\n",
        ),
    ]);
}

// Says which events the figure leaves out, if some are.
fn add_undrawn<A: Allocator>(page: &mut Page<A>, first: usize, past: usize) {
    if first < past {
        page.add(&[
            Mark("<p class=\"note\"><b>The figure ends here</b>: events "),
            Num(first),
            Mark(" to "),
            Num(past.saturating_sub(1)),
            Mark(" aren’t drawn. <code>--from</code> draws them.</p>\n"),
        ]);
    }
}

/// The figure of these events, which the run passes, as long as the page has at most so many bytes with it.
///
/// `AllocError` where memory is refused.
pub(crate) fn add_figure<A: Allocator + Copy>(
    alloc: A,
    page: &mut Page<A>,
    run: &mut Run<'_, A>,
    span: Span,
    most: usize,
) -> Result<(), AllocError> {
    let folds = folds_of(alloc, run, (span.first, span.past))?;
    add_folded(page, folds.as_slice());
    let window = Window::new(span.first, span.past, folds.as_slice());
    let first = add_strips_within(alloc, page, run, window, most)?;
    add_undrawn(page, first, span.past);
    Ok(())
}

/// The page of a run, in HTML: its script, what it printed and left, what happened in sentences, its figure, and a table of its
/// calls, in which calls that are alike are shown together. Of more than `MOST_EVENTS` events the first so many of those in the bounds
/// are drawn, and the page says which are left out; so it does where it would have more than 400,000 bytes, which it never has. Own.
///
/// `AllocError` where memory is refused.
pub fn run_page<A: Allocator + Copy>(
    alloc: A,
    trace: &Trace<A>,
    bounds: Bounds,
) -> Result<Vec<u8, A>, AllocError> {
    let mut page = Page::new(alloc);
    let mut run = Run::new(alloc, trace)?;
    let span = bounds.span(trace.events.len());
    add_head(
        &mut page,
        "A run of a script",
        trace.text(trace.head.script),
    );
    add_facts(&mut page, &run);
    page.mark("<h2>What happened</h2>\n");
    let most = share(&page, 3);
    add_story(&mut page, &run, span, most);
    page.mark(
        "<h2>Processes, pipes and output</h2>\n<p class=\"note\">Events go from left to right.</p>\n",
    );
    add_left_out(&mut page, span, trace.events.len());
    page.mark(KEY);
    run.pass(1, span.first);
    let most = share(&page, 5);
    add_figure(alloc, &mut page, &mut run, span, most)?;
    page.mark("<h2>Each call</h2>\n");
    add_table(alloc, &mut page, &run, span, MOST)?;
    page.mark("</main>\n</body>\n</html>\n");
    page.end()
}
