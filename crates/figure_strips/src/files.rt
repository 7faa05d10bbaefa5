//! The bands of a strip's files: what each file that the run changes holds, and which events touch it.

use crate::geometry::{FILE, LETTER, Window};
use crate::labels::add_text;
use crate::shapes::add_rect;
use crate::strip::Strip;
use Piece::{Mark, Num, Short};
use figure_words::{Page, Piece, Run, events_of};
use std::alloc::{AllocError, Allocator};
use trace_read::{Call, Event, FileState, Object, Part};

// How high what a file holds is drawn, and how far below the band's top.
const HIGH: usize = 16;

const TOP: usize = 7;

// The name of the file that the call of an event opens, reads, writes or closes.
fn touched<A: Allocator>(run: &Run<'_, A>, event: &Event) -> Option<Part> {
    let Some(trap) = &event.trap else {
        return None;
    };
    match (trap.call, trap.object) {
        (Call::Open(name, _), _) => Some(name),
        (_, Some(Object::File(name, _))) => Some(name),
        _ => {
            let state = run.trace.files.as_slice().get(trap.files.first)?;
            (trap.files.first < trap.files.past).then_some(state.name)
        }
    }
}

// Whether two names are the same.
fn is_same<A: Allocator>(run: &Run<'_, A>, one: Part, other: Part) -> bool {
    run.trace.text(one) == run.trace.text(other)
}

// Whether a name is among the others.
fn is_among<A: Allocator>(run: &Run<'_, A>, names: &[Part], name: Part) -> bool {
    for other in names {
        if is_same(run, *other, name) {
            return true;
        }
    }
    false
}

/// The names of the files that the run changes and that an event of the strip opens, reads, writes or closes, in the order in
/// which it does.
pub fn touched_files<A: Allocator + Copy>(
    alloc: A,
    run: &Run<'_, A>,
    window: Window<'_>,
) -> Result<Vec<Part, A>, AllocError> {
    let mut names: Vec<Part, A> = Vec::new(alloc);
    for event in events_of(run.trace, window.first, window.past) {
        if let Some(name) = touched(run, event) {
            if is_among(run, run.changed.as_slice(), name)
                && !is_among(run, names.as_slice(), name)
            {
                names.push(name)?;
            }
        }
    }
    Ok(names)
}

// The states of a file that are seen in the strip: the last one before it, and those in it.
fn states_of<A: Allocator + Copy>(
    alloc: A,
    run: &Run<'_, A>,
    window: Window<'_>,
    name: Part,
) -> Result<Vec<FileState, A>, AllocError> {
    let mut states: Vec<FileState, A> = Vec::new(alloc);
    for state in run.trace.files.as_slice() {
        if state.event < window.past && is_same(run, state.name, name) {
            if state.event < window.first {
                states.clear();
            }
            states.push(*state)?;
        }
    }
    Ok(states)
}

// What a file holds, in words, in so many columns.
fn add_head<A: Allocator>(
    page: &mut Page<A>,
    head: &[u8],
    is_empty: bool,
    room: usize,
    place: (usize, usize),
) {
    if is_empty {
        let word = if room < 5 { "∅" } else { "empty" };
        add_text(page, "small left", place, &[Mark(word)]);
        return;
    }
    let shown = Short(head, room.saturating_sub(2));
    add_text(page, "small left", place, &[Mark("“"), shown, Mark("”")]);
}

// What a file holds from one place to another: this many bytes, which begin so.
fn add_state<A: Allocator>(
    page: &mut Page<A>,
    length: usize,
    head: &[u8],
    (left, right, top): (usize, usize, usize),
) {
    let wide = right.saturating_sub(left);
    if wide == 0 {
        return;
    }
    let class = if length == 0 { "file empty" } else { "file" };
    add_rect(page, class, (left, top), (wide, HIGH));
    let room = wide.saturating_sub(6) / LETTER;
    if room < 3 {
        return;
    }
    let place = (left.saturating_add(4), top.saturating_add(12));
    add_head(page, head, length == 0, room, place);
}

// Where a state begins in the strip, and where it ends: where the next one begins.
fn ends_of(window: Window<'_>, event: usize, next: Option<&FileState>) -> (usize, usize) {
    let left = if window.has(event) {
        window.right(event)
    } else {
        0
    };
    match next {
        Some(next) => (left, window.right(next.event)),
        None => (left, window.end()),
    }
}

// What a file holds in the strip.
fn add_states<A: Allocator>(
    page: &mut Page<A>,
    run: &Run<'_, A>,
    window: Window<'_>,
    states: &[FileState],
    top: usize,
) {
    let mut next: usize = 1;
    for state in states {
        let (left, right) = ends_of(window, state.event, states.get(next));
        let head = run.trace.text(state.head);
        add_state(page, state.length, head, (left, right, top));
        next = next.saturating_add(1);
    }
}

// Whether an event touches the file of this name.
fn touches<A: Allocator>(run: &Run<'_, A>, event: &Event, name: Part) -> bool {
    match touched(run, event) {
        Some(other) => is_same(run, other, name),
        None => false,
    }
}

// Marks the events that touch a file: a stroke down to its band.
fn add_touches<A: Allocator>(
    page: &mut Page<A>,
    run: &Run<'_, A>,
    window: Window<'_>,
    name: Part,
    top: usize,
) {
    for event in events_of(run.trace, window.first, window.past) {
        if touches(run, event, name) && window.fold_of(event.number).is_none() {
            page.fill(
                "<path class=\"tick\" d=\"M% %v5\"/>",
                &[Num(window.middle(event.number)), Num(top)],
            );
        }
    }
}

/// The bands of the strip's files.
pub fn add_files<A: Allocator + Copy>(
    alloc: A,
    page: &mut Page<A>,
    run: &Run<'_, A>,
    strip: &Strip<'_, A>,
) -> Result<(), AllocError> {
    let mut top = strip.file_top();
    for name in strip.files.as_slice() {
        let states = states_of(alloc, run, strip.window, *name)?;
        let low = top.saturating_add(TOP);
        add_states(page, run, strip.window, states.as_slice(), low);
        add_touches(page, run, strip.window, *name, top.saturating_add(1));
        top = top.saturating_add(FILE);
    }
    Ok(())
}
