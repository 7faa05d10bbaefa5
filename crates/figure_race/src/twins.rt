//! Which process of a second run is which of the first: the one that is made by the same process, as the same child of it. Their
//! numbers may be others.

use figure_words::{Life, Run, place_of};
use std::alloc::{AllocError, Allocator};

// No place.
const NONE: usize = usize::MAX;

// Of each lane the places of the first process that its process made, and of the next one that its own maker made.
#[derive(Drop)]
struct Kin<A: Allocator> {
    first: Vec<usize, A>,
    next: Vec<usize, A>,
}

// What stands at a place of a list; `NONE` where there is none.
fn at(places: &[usize], place: usize) -> usize {
    match places.get(place) {
        Some(found) => *found,
        None => NONE,
    }
}

// Writes to a place of a list.
fn set(places: &mut [usize], place: usize, value: usize) {
    if let Some(found) = places.get_mut(place) {
        *found = value;
    }
}

// A list of so many places of nothing.
fn blank<A: Allocator>(alloc: A, count: usize) -> Result<Vec<usize, A>, AllocError> {
    let mut places: Vec<usize, A> = Vec::new(alloc);
    places.resize(count, NONE)?;
    Ok(places)
}

// The place of the lane of a process's maker; `NONE` where no process made it.
fn maker_at(lives: &[Life], life: &Life) -> usize {
    if life.lane.process == life.lane.maker {
        return NONE;
    }
    place_of(lives, life.lane.maker)
}

// The kin of the lanes of a run.
fn kin_of<A: Allocator + Copy>(alloc: A, lives: &[Life]) -> Result<Kin<A>, AllocError> {
    let mut first = blank(alloc, lives.len())?;
    let mut next = blank(alloc, lives.len())?;
    let mut last = blank(alloc, lives.len())?;
    for (place, life) in lives.iter().enumerate() {
        let maker = maker_at(lives, life);
        let sibling = at(last.as_slice(), maker);
        if sibling == NONE {
            set(first.as_mut_slice(), maker, place);
        } else {
            set(next.as_mut_slice(), sibling, place);
        }
        set(last.as_mut_slice(), maker, place);
    }
    Ok(Kin { first, next })
}

/// Of each lane of the first run the place of the lane of the same process in the second; more than there are where it has none.
///
/// `AllocError` where memory is refused.
pub(crate) fn twins_of<A: Allocator + Copy>(
    alloc: A,
    one: &Run<'_, A>,
    other: &Run<'_, A>,
) -> Result<Vec<usize, A>, AllocError> {
    let lives = one.lives.as_slice();
    let kin = kin_of(alloc, other.lives.as_slice())?;
    let mut twins = blank(alloc, lives.len())?;
    let mut last = blank(alloc, lives.len())?;
    for (place, life) in lives.iter().enumerate() {
        let maker = maker_at(lives, life);
        let sibling = at(last.as_slice(), maker);
        let twin = if maker == NONE {
            place
        } else if sibling == NONE {
            at(kin.first.as_slice(), at(twins.as_slice(), maker))
        } else {
            at(kin.next.as_slice(), at(twins.as_slice(), sibling))
        };
        set(twins.as_mut_slice(), place, twin);
        set(last.as_mut_slice(), maker, place);
    }
    Ok(twins)
}
