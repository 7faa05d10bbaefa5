//! Reads and writes that are shown together: those of one process through one descriptor, in a part of a run.

use Piece::{Count, Mark, Num};
use figure_strips::Fold;
use figure_words::{Page, Piece, Run, add_call, add_object, add_process, events_of};
use std::alloc::{AllocError, Allocator};
use trace_read::{Call, Event, Reply, State, Trap};

// How many columns a command takes.
const ROOM: usize = 32;

// Calls that are alike: the first and the last of them, how many there are, how many of these sleep, and how many bytes the others
// moved, and each of them, where that is the same.
#[derive(Clone, Copy)]
struct Group<'t> {
    first: &'t Event,
    last: usize,
    sleeps: usize,
    count: usize,
    bytes: usize,
    each: Option<usize>,
}

// The descriptor of a read or a write, and whether it is a read.
fn end_of(event: &Event) -> Option<(bool, usize)> {
    match event.trap?.call {
        Call::Read(fd, _) => Some((true, fd)),
        Call::Write(fd, _) => Some((false, fd)),
        _ => None,
    }
}

// Whether both are reads, or writes, of one process through one descriptor.
fn are_alike(one: &Event, other: &Event) -> bool {
    match (end_of(one), end_of(other)) {
        (Some((one_reads, one_fd)), Some((other_reads, other_fd))) => {
            one_reads == other_reads && one_fd == other_fd && one.process == other.process
        }
        _ => false,
    }
}

// How many bytes a call moved; `None` of one that sleeps.
fn moved_by<A: Allocator>(run: &Run<'_, A>, trap: &Trap) -> Option<usize> {
    match (trap.state, trap.call) {
        (State::Asleep(_), _) => None,
        (State::Runnable(Reply::Bytes(bytes)), _) => Some(run.trace.text(bytes).len()),
        (State::Runnable(Reply::Done), Call::Write(_, bytes)) => Some(run.trace.text(bytes).len()),
        _ => Some(0),
    }
}

impl<'t> Group<'t> {
    // The group of one call.
    fn new(first: &'t Event, moved: Option<usize>) -> Group<'t> {
        Group {
            first,
            last: first.number,
            sleeps: if moved.is_none() { 1 } else { 0 },
            count: if moved.is_none() { 0 } else { 1 },
            bytes: moved.unwrap_or(0),
            each: moved,
        }
    }

    // The group with a call more.
    fn with(self, number: usize, moved: Option<usize>) -> Group<'t> {
        let Some(bytes) = moved else {
            return Group {
                last: number,
                sleeps: self.sleeps.saturating_add(1),
                ..self
            };
        };
        Group {
            last: number,
            count: self.count.saturating_add(1),
            bytes: self.bytes.saturating_add(bytes),
            each: if self.count == 0 || self.each == moved {
                moved
            } else {
                None
            },
            ..self
        }
    }
}

// Adds a call to the group of those that are like it, or begins one.
fn add_to_group<'t, A: Allocator>(
    groups: &mut Vec<Group<'t>, A>,
    event: &'t Event,
    moved: Option<usize>,
) -> Result<(), AllocError> {
    for group in groups.as_mut_slice().iter_mut() {
        if are_alike(group.first, event) {
            *group = group.with(event.number, moved);
            return Ok(());
        }
    }
    groups.push(Group::new(event, moved))?;
    Ok(())
}

// The groups of the calls of a phase.
fn groups_of<'t, A: Allocator + Copy>(
    alloc: A,
    run: &Run<'t, A>,
    phase: Fold,
) -> Result<Vec<Group<'t>, A>, AllocError> {
    let mut groups: Vec<Group<'t>, A> = Vec::new(alloc);
    for event in events_of(run.trace, phase.first, phase.past) {
        if let Some(trap) = &event.trap {
            add_to_group(&mut groups, event, moved_by(run, trap))?;
        }
    }
    Ok(groups)
}

// How often a call was made, and what it moved.
fn add_times<A: Allocator + Copy>(
    page: &mut Page<A>,
    run: &Run<'_, A>,
    group: &Group<'_>,
    trap: &Trap,
) {
    let word = match trap.call {
        Call::Read(_, _) => "reads ",
        _ => "writes ",
    };
    page.mark(word);
    match group.each {
        Some(each) => page.add(&[Count(each)]),
        None => page.add(&[Mark("in all "), Count(group.bytes)]),
    }
    page.mark(if matches!(trap.call, Call::Read(_, _)) {
        " of "
    } else {
        " to "
    });
    add_object(page, run, trap.object);
    page.add(&[Mark(", <b>"), Num(group.count), Mark(" times</b>")]);
}

// What the calls of a group did.
fn add_deeds<A: Allocator + Copy>(
    page: &mut Page<A>,
    run: &Run<'_, A>,
    group: &Group<'_>,
    trap: &Trap,
) {
    if group.count > 0 {
        add_times(page, run, group, trap);
    }
    if group.sleeps > 0 {
        page.mark(if group.count > 0 { "; " } else { "" });
        page.add(&[Mark("sleeps <b>"), Num(group.sleeps), Mark(" times</b>")]);
    }
}

// The row of a group.
fn add_group<A: Allocator + Copy>(page: &mut Page<A>, run: &Run<'_, A>, group: &Group<'_>) {
    let event = group.first;
    let Some(trap) = &event.trap else {
        return;
    };
    page.add(&[
        Mark("<tr><th scope=\"row\">"),
        Num(event.number),
        Mark("–"),
        Num(group.last),
        Mark("</th><td></td><td></td><td>"),
    ]);
    add_process(page, run, event, ROOM);
    page.mark("</td><td><code>");
    add_call(page, run, trap);
    page.mark("</code></td><td>");
    add_deeds(page, run, group, trap);
    page.mark("</td></tr>\n");
}

/// The rows of a phase, one for the calls of each process through each descriptor, but none more once the page has so many bytes;
/// returns how many rows there are, and how many calls have none.
///
/// `AllocError` where memory is refused.
pub(crate) fn add_phase<A: Allocator + Copy>(
    alloc: A,
    page: &mut Page<A>,
    run: &Run<'_, A>,
    phase: Fold,
    most: usize,
) -> Result<(usize, usize), AllocError> {
    let groups = groups_of(alloc, run, phase)?;
    let mut rows: usize = 0;
    let mut left: usize = 0;
    for group in groups.as_slice() {
        if page.size() < most {
            rows = rows.saturating_add(1);
            add_group(page, run, group);
        } else {
            left = left
                .saturating_add(group.count)
                .saturating_add(group.sleeps);
        }
    }
    Ok((rows, left))
}
