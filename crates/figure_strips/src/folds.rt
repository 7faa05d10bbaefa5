//! Which events are drawn as one: many reads and writes in a row that are like others before them.

use crate::geometry::{FOLD_COLUMNS, Fold, Window};
use figure_words::{Run, events_of};
use std::alloc::{AllocError, Allocator};
use trace_read::{Call, Event, Object, Part, PipeState, Process, Reply, State, Trap};

// How often a read or a write of a kind is drawn before it is dull, and how many dull events in a row are folded in a figure, and in
// a table.
const DRAWN: usize = 3;

const FEWEST: usize = 12;

const FEWEST_ROWS: usize = 6;

// Whether a figure or a table is folded.
#[derive(Clone, Copy)]
enum Folded {
    Figure,
    Table,
}

// What reads or writes that are alike have in common.
#[derive(Clone, Copy, PartialEq, Eq)]
struct Kind {
    process: Process,
    is_read: bool,
    fd: usize,
    pipe: usize,
    outcome: u8,
    wakes: bool,
}

// A kind, and how often it came.
#[derive(Clone, Copy)]
struct Seen {
    kind: Kind,
    times: usize,
}

// The pipe that an object is an end of; 0 of another.
fn pipe_of(object: Option<Object>) -> usize {
    match object {
        Some(Object::PipeRead(pipe) | Object::PipeWrite(pipe)) => pipe,
        _ => 0,
    }
}

// Whether the call returned, was refused, or put its process to sleep.
fn outcome_of(state: State) -> u8 {
    match state {
        State::Runnable(Reply::Refused) => 1,
        State::Runnable(_) => 0,
        State::Asleep(_) | State::Zombie => 2,
    }
}

// The kind of a read or a write.
fn kind_of(event: &Event, trap: &Trap) -> Option<Kind> {
    let (is_read, fd) = match trap.call {
        Call::Read(fd, _) => (true, fd),
        Call::Write(fd, _) => (false, fd),
        _ => return None,
    };
    Some(Kind {
        process: event.process,
        is_read,
        fd,
        pipe: pipe_of(trap.object),
        outcome: outcome_of(trap.state),
        wakes: trap.woken != 0,
    })
}

// Whether bytes end a line.
fn ends_line<A: Allocator>(run: &Run<'_, A>, bytes: Option<Part>) -> bool {
    match bytes {
        Some(bytes) => run.trace.text(bytes).contains(&b'\n'),
        None => false,
    }
}

// Whether an end is closed in one of these states.
fn closes_end(states: &[PipeState]) -> bool {
    for state in states {
        if state.closes_read || state.closes_write {
            return true;
        }
    }
    false
}

// Whether a call is always drawn: it meets the end of a file, prints a diagnostic, closes an end of a pipe, or finds something full; in
// a figure also where it ends a line of the output or changes a file.
fn is_notable<A: Allocator>(run: &Run<'_, A>, folded: Folded, trap: &Trap) -> bool {
    let pipes = run.trace.pipes.as_slice();
    let pipes = pipes.get(trap.pipes.first..trap.pipes.past).unwrap_or(&[]);
    let is_seen = match folded {
        Folded::Figure => ends_line(run, trap.out) || trap.files.first < trap.files.past,
        Folded::Table => false,
    };
    is_seen || trap.is_at_end || closes_end(pipes) || trap.diag.is_some() || trap.full.is_some()
}

// Whether so many of its kind were drawn; counts it.
fn is_seen<A: Allocator>(seen: &mut Vec<Seen, A>, kind: Kind) -> Result<bool, AllocError> {
    for entry in seen.as_mut_slice().iter_mut() {
        if entry.kind == kind {
            entry.times = entry.times.saturating_add(1);
            return Ok(entry.times > DRAWN);
        }
    }
    seen.push(Seen { kind, times: 1 })?;
    Ok(false)
}

// Marks an event.
fn mark(dull: &mut [bool], first: usize, event: usize) {
    if let Some(is_dull) = dull.get_mut(event.wrapping_sub(first)) {
        *is_dull = true;
    }
}

// Whether a call is like others before it, and isn't always drawn.
fn is_dull<A: Allocator>(
    (run, folded): (&Run<'_, A>, Folded),
    seen: &mut Vec<Seen, A>,
    event: &Event,
    trap: &Trap,
) -> Result<bool, AllocError> {
    match kind_of(event, trap) {
        Some(kind) => Ok(is_seen(seen, kind)? && !is_notable(run, folded, trap)),
        None => Ok(false),
    }
}

// Marks the calls that are like others, and the dispatches before them.
fn mark_all<A: Allocator>(
    (run, folded): (&Run<'_, A>, Folded),
    seen: &mut Vec<Seen, A>,
    dull: &mut [bool],
    (first, past): (usize, usize),
) -> Result<(), AllocError> {
    for event in events_of(run.trace, first, past) {
        if let Some(trap) = &event.trap {
            if is_dull((run, folded), seen, event, trap)? {
                mark(dull, first, event.number);
                mark(dull, first, trap.from);
            }
        }
    }
    Ok(())
}

// Which events from the first on are dull: the calls that are like others, and the dispatches before them.
fn dull_events<A: Allocator + Copy>(
    alloc: A,
    (run, folded): (&Run<'_, A>, Folded),
    (first, past): (usize, usize),
) -> Result<Vec<bool, A>, AllocError> {
    let mut seen: Vec<Seen, A> = Vec::new(alloc);
    let mut dull: Vec<bool, A> = Vec::new(alloc);
    dull.resize(past.saturating_sub(first), false)?;
    mark_all((run, folded), &mut seen, dull.as_mut_slice(), (first, past))?;
    Ok(dull)
}

// Adds the fold of these events, if they are enough.
fn add_fold<A: Allocator>(
    folds: &mut Vec<Fold, A>,
    folded: Folded,
    (first, past): (usize, usize),
) -> Result<(), AllocError> {
    let fold = Fold { first, past };
    let fewest = match folded {
        Folded::Figure => FEWEST,
        Folded::Table => FEWEST_ROWS,
    };
    if fold.count() >= fewest {
        folds.push(fold)?;
    }
    Ok(())
}

// Adds the folds of events, of which the first has this number.
fn add_folds<A: Allocator>(
    folds: &mut Vec<Fold, A>,
    folded: Folded,
    dull: &[bool],
    first: usize,
) -> Result<(), AllocError> {
    let mut begin = first;
    let mut event = first;
    for is_dull in dull {
        if !*is_dull {
            add_fold(folds, folded, (begin, event))?;
            begin = event.saturating_add(1);
        }
        event = event.saturating_add(1);
    }
    add_fold(folds, folded, (begin, event))
}

// Which of the events are folded in a figure or a table.
fn folds_by<A: Allocator + Copy>(
    alloc: A,
    (run, folded): (&Run<'_, A>, Folded),
    (first, past): (usize, usize),
) -> Result<Vec<Fold, A>, AllocError> {
    let dull = dull_events(alloc, (run, folded), (first, past))?;
    let mut folds: Vec<Fold, A> = Vec::new(alloc);
    add_folds(&mut folds, folded, dull.as_slice(), first)?;
    Ok(folds)
}

/// Which of the events from a number on, and before another, are folded, in order: twelve or more in a row that are dull. Dull is a
/// read or a write, with the dispatch before it, of which three of its kind came before: by the same process through the same
/// descriptor to or from the same pipe, with the same outcome, and waking somebody or nobody; unless it meets the end of a file, ends
/// a line of the output, changes a file, closes an end of a pipe, is refused room or prints a diagnostic. Own.
///
/// `AllocError` where memory is refused.
pub fn folds_of<A: Allocator + Copy>(
    alloc: A,
    run: &Run<'_, A>,
    (first, past): (usize, usize),
) -> Result<Vec<Fold, A>, AllocError> {
    folds_by(alloc, (run, Folded::Figure), (first, past))
}

/// Which of the events from a number on, and before another, are folded in a table, in order: six or more in a row that are dull, as of
/// `folds_of`, also where they end lines of the output or change files. Own.
///
/// `AllocError` where memory is refused.
pub fn phases_of<A: Allocator + Copy>(
    alloc: A,
    run: &Run<'_, A>,
    (first, past): (usize, usize),
) -> Result<Vec<Fold, A>, AllocError> {
    folds_by(alloc, (run, Folded::Table), (first, past))
}

/// The events of the strip that begins where the window does: as many as have room, with whole folds, and at least one or one fold.
pub fn first_strip<'f>(window: Window<'f>) -> Window<'f> {
    let room = window.strip_columns();
    let mut left = room;
    let mut past = window.first;
    let mut taken: usize = 0;
    for _column in 0..room {
        if past >= window.past {
            break;
        }
        let (columns, next) = match window.folds.get(taken) {
            Some(fold) if fold.first == past => (FOLD_COLUMNS, fold.past),
            _ => (1, past.saturating_add(1)),
        };
        if columns > left {
            break;
        }
        if columns > 1 {
            taken = taken.saturating_add(1);
        }
        left = left.saturating_sub(columns);
        past = next;
    }
    Window {
        past: past.min(window.past),
        folds: window.folds.get(..taken).unwrap_or(&[]),
        ..window
    }
}

/// The rest of a window behind a strip of it.
pub fn rest_of<'f>(window: Window<'f>, strip: Window<'_>) -> Window<'f> {
    Window {
        first: strip.past,
        folds: window.folds.get(strip.folds.len()..).unwrap_or(&[]),
        ..window
    }
}
