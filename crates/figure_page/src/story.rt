//! What happened: the calls that a reader should know of, in sentences.

use Piece::{Mark, Num};
use figure_strips::Span;
use figure_words::{Page, Piece, Run, add_process, add_sentence, events_of};
use std::alloc::Allocator;
use trace_read::{Call, Channel, Event, Mode, Reply, State, Trap};

// How many calls are shown at most, and how many columns a command takes.
const MOST: usize = 36;

const ROOM: usize = 24;

// Whether both are one end of one pipe.
fn is_same(one: Channel, other: Channel) -> bool {
    match (one, other) {
        (Channel::PipeBytes(one), Channel::PipeBytes(other))
        | (Channel::PipeRoom(one), Channel::PipeRoom(other)) => one == other,
        _ => false,
    }
}

// Whether a sleep is the first of its process on this end of a pipe.
fn is_first_sleep<A: Allocator>(run: &Run<'_, A>, event: &Event, channel: Channel) -> bool {
    let first = run.bars.as_slice().iter().find(|bar| bar.process == event.process
        && is_same(bar.channel, channel));
    match first {
        Some(bar) => bar.from == event.number,
        None => false,
    }
}

// Whether a call was refused.
fn is_refused(event: &Event) -> bool {
    match event.trap {
        Some(trap) => matches!(trap.state, State::Runnable(Reply::Refused)),
        None => false,
    }
}

// Whether a refused call is the first of its process.
fn is_first_refused<A: Allocator>(run: &Run<'_, A>, event: &Event) -> bool {
    let first = run.trace.events.as_slice().iter().find(|other| other.process == event.process
        && is_refused(other));
    match first {
        Some(other) => other.number == event.number,
        None => false,
    }
}

// Whether a call makes a pipe, runs a program or opens a file to write.
fn is_beginning(trap: &Trap) -> bool {
    match trap.call {
        Call::Pipe | Call::Exec(_, _) => true,
        Call::Open(_, Mode::Input) => false,
        Call::Open(_, _) => true,
        _ => false,
    }
}

// Whether a call ends a line of the output, or closes an end of a pipe for good.
fn is_end<A: Allocator>(run: &Run<'_, A>, trap: &Trap) -> bool {
    let pipes = run.trace.pipes.as_slice();
    let pipes = pipes.get(trap.pipes.first..trap.pipes.past).unwrap_or(&[]);
    let ends_line = match trap.out {
        Some(out) => run.trace.text(out).contains(&b'\n'),
        None => false,
    };
    ends_line
        || pipes
            .iter()
            .any(|state| state.closes_read || state.closes_write)
}

// Whether a call is shown.
fn is_shown<A: Allocator>(run: &Run<'_, A>, event: &Event, trap: &Trap) -> bool {
    let is_notable = trap.is_at_end
        || trap.diag.is_some()
        || trap.full.is_some()
        || trap.files.first < trap.files.past
        || is_end(run, trap);
    is_notable
        || match trap.state {
            State::Zombie => false,
            State::Asleep(channel) => is_first_sleep(run, event, channel),
            State::Runnable(Reply::Refused) => is_first_refused(run, event),
            State::Runnable(_) => is_beginning(trap),
        }
}

// The sentence of a call, with its event and its process before it.
fn add_item<A: Allocator + Copy>(page: &mut Page<A>, run: &Run<'_, A>, event: &Event, trap: &Trap) {
    page.add(&[
        Mark("<li><span class=\"note\">"),
        Num(event.number),
        Mark("</span> "),
    ]);
    add_process(page, run, event, ROOM);
    page.mark(" ");
    add_sentence(page, run, event, trap);
    page.mark("</li>\n");
}

/// What happened at these events: the calls that make pipes, run programs, change files, end lines of the output, close ends of
/// pipes, meet the end of a file, print diagnostics or find something full, the first sleep of each process on each end of a pipe, and
/// the first refused call of each process; the first `MOST` of them, and none more once the page has so many bytes.
pub(crate) fn add_story<A: Allocator + Copy>(
    page: &mut Page<A>,
    run: &Run<'_, A>,
    span: Span,
    most: usize,
) {
    page.mark("<ol class=\"story\">\n");
    let mut shown: usize = 0;
    let mut left: usize = 0;
    for event in events_of(run.trace, span.first, span.past) {
        let Some(trap) = &event.trap else {
            continue;
        };
        if is_shown(run, event, trap) {
            if shown < MOST && page.size() < most {
                shown = shown.saturating_add(1);
                add_item(page, run, event, trap);
            } else {
                left = left.saturating_add(1);
            }
        }
    }
    page.mark("</ol>\n");
    if left > 0 {
        page.add(&[
            Mark("<p class=\"note\">and "),
            Num(left),
            Mark(" more such calls, in the table below</p>\n"),
        ]);
    }
}
