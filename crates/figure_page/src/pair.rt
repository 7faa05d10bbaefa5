//! The page of two runs of one script.

use crate::differ::add_differences;
use crate::header::{add_files, add_head, add_printed, add_size};
use crate::page::{add_figure, add_left_out, share};
use crate::story::add_story;
use crate::style::KEY;
use crate::table::add_table;
use Piece::{Mark, Num};
use figure_race::{add_turns, add_why};
use figure_strips::{Bounds, Span};
use figure_words::{Page, Piece, Run};
use run_figure::common_events;
use std::alloc::{AllocError, Allocator};
use trace_read::Trace;

// How many tenths of what is left of the page the story, the figure and the table of a run get.
#[derive(Clone, Copy)]
struct Shares {
    story: usize,
    figure: usize,
    table: usize,
}

const BEGINNING: Shares = Shares {
    story: 0,
    figure: 3,
    table: 2,
};

const RUN_1: Shares = Shares {
    story: 1,
    figure: 3,
    table: 3,
};

const RUN_2: Shares = Shares {
    story: 2,
    figure: 6,
    table: 10,
};

// How many tenths what differs and why gets.
const DIFFER: usize = 2;

const WHY: usize = 4;

// What a run printed as diagnostics, if it printed something.
fn add_messages<A: Allocator + Copy>(page: &mut Page<A>, name: &'static str, trace: &Trace<A>) {
    let diagnostics = trace.text(trace.end.diag);
    if diagnostics.is_empty() {
        return;
    }
    add_printed(page, name, diagnostics);
}

// What both runs printed and left.
fn add_both_facts<A: Allocator + Copy>(page: &mut Page<A>, one: &Run<'_, A>, other: &Run<'_, A>) {
    page.mark("<dl class=\"facts\">\n");
    add_printed(page, "Run 1 prints", one.trace.text(one.trace.end.out));
    add_printed(page, "Run 2 prints", other.trace.text(other.trace.end.out));
    add_messages(page, "Messages of run 1", one.trace);
    add_messages(page, "Messages of run 2", other.trace);
    add_files(page, "Files before", one.trace, one.trace.head.files);
    add_files(page, "Files after run 1", one.trace, one.trace.end.files);
    add_files(
        page,
        "Files after run 2",
        other.trace,
        other.trace.end.files,
    );
    add_size(page, "Run 1", one);
    add_size(page, "Run 2", other);
    page.mark("</dl>\n");
}

// The figure and the table of these events, within their shares.
fn add_events<A: Allocator + Copy>(
    alloc: A,
    page: &mut Page<A>,
    run: &mut Run<'_, A>,
    span: Span,
    shares: Shares,
) -> Result<(), AllocError> {
    let most = share(page, shares.figure);
    add_figure(alloc, page, run, span, most)?;
    let most = share(page, shares.table);
    add_table(alloc, page, run, span, most)
}

// The figure and the table of a run from an event on, which open.
fn add_rest<A: Allocator + Copy>(
    alloc: A,
    page: &mut Page<A>,
    run: &mut Run<'_, A>,
    (title, shares): (&'static str, Shares),
    span: Span,
) -> Result<(), AllocError> {
    page.add(&[
        Mark("<details class=\"whole\"><summary><h2>"),
        Mark(title),
        Mark(", from event "),
        Num(span.first),
        Mark(" on</h2></summary>\n"),
    ]);
    let most = share(page, shares.story);
    add_story(page, run, span, most);
    run.pass(1, span.first);
    add_events(alloc, page, run, span, shares)?;
    page.mark("</details>\n");
    Ok(())
}

// The figure and the table of what both runs begin with, which open.
fn add_beginning<A: Allocator + Copy>(
    alloc: A,
    page: &mut Page<A>,
    run: &mut Run<'_, A>,
    (span, parting): (Span, usize),
) -> Result<(), AllocError> {
    page.mark("<details class=\"whole\"><summary><h2>What both begin with</h2></summary>\n");
    add_left_out(page, span, run.trace.events.len());
    page.mark(KEY);
    run.pass(1, span.first);
    add_events(alloc, page, run, span.before(parting), BEGINNING)?;
    page.mark("</details>\n");
    Ok(())
}

/// The page of two runs of one script: what they leave that differs, the event at which they part, and the calls whose order decides
/// it, side by side; then, each behind a line that opens, what both begin with, once, and the rest of each. The bounds are as of
/// `run_page`, of each run, and it has at most as many bytes. Own.
///
/// `AllocError` where memory is refused.
pub fn pair_page<'t, A: Allocator + Copy>(
    alloc: A,
    one: &'t Trace<A>,
    other: &'t Trace<A>,
    bounds: Bounds,
) -> Result<Vec<u8, A>, AllocError> {
    let mut page = Page::new(alloc);
    let mut first = Run::new(alloc, one)?;
    let mut second = Run::new(alloc, other)?;
    let count = common_events(one.events.as_slice(), other.events.as_slice());
    let parting = count.saturating_add(1);
    add_head(&mut page, "Two runs of a script", one.text(one.head.script));
    let most = share(&page, DIFFER);
    add_differences(&mut page, one, other, most);
    let most = share(&page, WHY);
    add_why(alloc, &mut page, (&first, &second), count, most)?;
    page.mark("<h2>All of both runs</h2>\n");
    add_turns(&mut page, &first, &second, count);
    add_both_facts(&mut page, &first, &second);
    let span = bounds.span(one.events.len());
    add_beginning(alloc, &mut page, &mut first, (span, parting))?;
    let rest = span.from(parting);
    add_rest(alloc, &mut page, &mut first, ("Run 1", RUN_1), rest)?;
    let rest = bounds.span(other.events.len()).from(parting);
    add_rest(alloc, &mut page, &mut second, ("Run 2", RUN_2), rest)?;
    page.mark("</main>\n</body>\n</html>\n");
    page.end()
}
