//! The calls that decide which of two runs it is: the first two of one thing, by two processes, that come in another order.

use crate::parting::deed_of;
use crate::things::{Thing, matters, next_touch};
use figure_words::{Run, place_of};
use std::alloc::{AllocError, Allocator};
use trace_read::{Event, Process};

// How many files, and how many pipes, are looked at.
const MOST: usize = 16;

/// What decides which of two runs it is: the thing, as each has it, and the call that comes first in each, where one does.
#[derive(Clone, Copy)]
pub(crate) struct Cause<'t> {
    pub(crate) thing: Thing<'t>,
    pub(crate) other_thing: Thing<'t>,
    pub(crate) first: Option<&'t Event>,
    pub(crate) second: Option<&'t Event>,
}

/// Two runs of one script, and where the lanes of the first are in the second.
#[derive(Clone, Copy)]
pub(crate) struct Pair<'p, 't, A: Allocator> {
    pub(crate) one: &'p Run<'t, A>,
    pub(crate) other: &'p Run<'t, A>,
    pub(crate) twins: &'p [usize],
}

impl<'t, A: Allocator> Pair<'_, 't, A> {
    /// The process of the second run that is this one of the first.
    pub(crate) fn twin(&self, process: Process) -> Option<Process> {
        let place = place_of(self.one.lives.as_slice(), process);
        let twin = self.twins.get(place)?;
        let life = self.other.lives.as_slice().get(*twin)?;
        Some(life.lane.process)
    }

    /// The process of the first run that is this one of the second.
    pub(crate) fn back(&self, process: Process) -> Option<Process> {
        let twin = place_of(self.other.lives.as_slice(), process);
        let place = self.twins.iter().position(|other| *other == twin)?;
        let life = self.one.lives.as_slice().get(place)?;
        Some(life.lane.process)
    }

    // The thing of the second run that is this one of the first.
    fn other_thing(&self, thing: Thing<'t>) -> Option<Thing<'t>> {
        match thing {
            Thing::Pipe(maker) => Some(Thing::Pipe(self.twin(maker)?)),
            _ => Some(thing),
        }
    }

    // Whether two calls of one thing are of two processes, and their order matters.
    fn is_parted(
        &self,
        thing: Thing<'t>,
        (first, second): (Option<&Event>, Option<&Event>),
    ) -> bool {
        match (first, second) {
            (Some(first), Some(second)) => {
                self.twin(first.process) != Some(second.process)
                    && are_weighty(thing, is_weighty(first), is_weighty(second))
            }
            (Some(event), None) | (None, Some(event)) => is_weighty(event),
            (None, None) => false,
        }
    }

    // The first calls of a thing, from these events on, that come in another order.
    fn parted_at(&self, thing: Thing<'t>, from: usize) -> Option<Cause<'t>> {
        let other_thing = self.other_thing(thing)?;
        let (mut one_from, mut other_from) = (from, from);
        for _call in 0..self.one.trace.events.len().saturating_add(1) {
            let first = next_touch(self.one, one_from, thing);
            let second = next_touch(self.other, other_from, other_thing);
            if self.is_parted(thing, (first, second)) {
                return Some(Cause {
                    thing,
                    other_thing,
                    first,
                    second,
                });
            }
            one_from = behind(first?);
            other_from = behind(second?);
        }
        None
    }
}

// The number behind that of an event.
fn behind(event: &Event) -> usize {
    event.number.saturating_add(1)
}

// Whether the order of two calls of a thing matters, of which each does or doesn't: in the table of processes both have to.
fn are_weighty(thing: Thing<'_>, one: bool, other: bool) -> bool {
    match thing {
        Thing::Table => one && other,
        _ => one || other,
    }
}

// Whether the order of the event's call and others of its thing matters.
fn is_weighty(event: &Event) -> bool {
    match &event.trap {
        Some(trap) => matters(trap),
        None => false,
    }
}

// The number of an event, or more than there are.
fn number_of(event: Option<&Event>) -> usize {
    match event {
        Some(event) => event.number,
        None => usize::MAX,
    }
}

// How early a cause is: what both calls touch at which the runs part comes first, then output, messages and files, then pipes, and
// then the table of processes; of these the one whose call in the first run comes first.
fn weight_of(cause: &Cause<'_>, parting: (usize, usize)) -> (u8, usize) {
    let (first, second) = (number_of(cause.first), number_of(cause.second));
    let rank = match cause.thing {
        _ if (first, second) == parting => 0,
        Thing::Out | Thing::Diag | Thing::File(_) => 1,
        Thing::Pipe(_) => 2,
        Thing::Table => 3,
    };
    (rank, first.min(second))
}

// Whether one weight is less than another.
fn is_less((rank, number): (u8, usize), (other_rank, other_number): (u8, usize)) -> bool {
    rank < other_rank || (rank == other_rank && number < other_number)
}

// Adds the files that a run changes.
fn add_files<'t, A: Allocator>(
    things: &mut Vec<Thing<'t>, A>,
    run: &Run<'t, A>,
) -> Result<(), AllocError> {
    for name in run.changed.as_slice().iter().take(MOST) {
        things.push(Thing::File(run.trace.text(*name)))?;
    }
    Ok(())
}

// What the processes of the runs share.
fn things_of<'t, A: Allocator + Copy>(
    alloc: A,
    pair: Pair<'_, 't, A>,
) -> Result<Vec<Thing<'t>, A>, AllocError> {
    let mut things: Vec<Thing<'t>, A> = Vec::new(alloc);
    things.push(Thing::Out)?;
    things.push(Thing::Diag)?;
    things.push(Thing::Table)?;
    add_files(&mut things, pair.one)?;
    add_files(&mut things, pair.other)?;
    for band in pair.one.bands.as_slice().iter().take(MOST) {
        things.push(Thing::Pipe(band.maker))?;
    }
    Ok(things)
}

// The number of the call that is made at an event of a run, or at the first event to which its process runs from there.
fn call_at<A: Allocator>(run: &Run<'_, A>, number: usize) -> usize {
    number_of(deed_of(run.trace.events.as_slice(), number))
}

/// What decides which of two runs it is that part at this event; `None` where all calls on what processes share come in one order.
///
/// `AllocError` where memory is refused.
pub(crate) fn cause_of<'t, A: Allocator + Copy>(
    alloc: A,
    pair: Pair<'_, 't, A>,
    number: usize,
) -> Result<Option<Cause<'t>>, AllocError> {
    let things = things_of(alloc, pair)?;
    let parting = (call_at(pair.one, number), call_at(pair.other, number));
    let mut found = None;
    let mut least = (u8::MAX, usize::MAX);
    for thing in things.as_slice() {
        if let Some(cause) = pair.parted_at(*thing, number) {
            let weight = weight_of(&cause, parting);
            if is_less(weight, least) {
                least = weight;
                found = Some(cause);
            }
        }
    }
    Ok(found)
}
