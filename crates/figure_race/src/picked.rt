//! Which calls of a run are in the picture, and in which columns.

use crate::side::Side;
use figure_strips::Span;
use std::alloc::{AllocError, Allocator};
use trace_read::Event;

// How many columns a picture has at most before the call that decides, and behind it.
const BEFORE: usize = 3;

const BEHIND: usize = 4;

/// How many columns a picture of two runs has before the one of the calls that decide, and behind it.
#[derive(Clone, Copy)]
pub(crate) struct Grid {
    pub(crate) before: usize,
    pub(crate) behind: usize,
}

impl Grid {
    /// The columns that two runs need together.
    pub(crate) fn of<A: Allocator + Copy>(one: &Side<'_, '_, A>, other: &Side<'_, '_, A>) -> Grid {
        let (before, behind) = counts(one);
        let (other_before, other_behind) = counts(other);
        Grid {
            before: before.max(other_before).min(BEFORE),
            behind: behind.max(other_behind).min(BEHIND),
        }
    }

    /// How many columns there are.
    pub(crate) fn columns(self) -> usize {
        self.before.saturating_add(self.behind).saturating_add(1)
    }
}

/// A call in the picture, and its column.
#[derive(Clone, Copy)]
pub(crate) struct Shown<'t> {
    pub(crate) event: &'t Event,
    pub(crate) column: usize,
}

// How many calls of a run are listed before the one that decides, and behind it.
fn counts<A: Allocator + Copy>(side: &Side<'_, '_, A>) -> (usize, usize) {
    let (before, behind) = side.parts();
    (side.count(before), side.count(behind))
}

// Adds the listed calls of some events, from one of them on, counted from 0, in columns up to another.
fn add_some<'t, A: Allocator + Copy>(
    shown: &mut Vec<Shown<'t>, A>,
    side: &Side<'_, 't, A>,
    span: Span,
    from: usize,
    (first, past): (usize, usize),
) -> Result<(), AllocError> {
    let mut seen: usize = 0;
    let mut column = first;
    for event in side.events(span) {
        if column < past && side.is_meant(event) {
            if seen >= from {
                shown.push(Shown { event, column })?;
                column = column.saturating_add(1);
            }
            seen = seen.saturating_add(1);
        }
    }
    Ok(())
}

/// The calls of a run that are in the picture, in order: the last listed ones before the one that decides, that one, and the first ones
/// behind it.
///
/// `AllocError` where memory is refused.
pub(crate) fn shown_of<'t, A: Allocator + Copy>(
    alloc: A,
    side: &Side<'_, 't, A>,
    grid: Grid,
) -> Result<Vec<Shown<'t>, A>, AllocError> {
    let mut shown: Vec<Shown<'t>, A> = Vec::new(alloc);
    let (before, behind) = side.parts();
    let (count, _behind) = counts(side);
    let from = count.saturating_sub(grid.before);
    let first = grid.before.saturating_sub(count);
    add_some(&mut shown, side, before, from, (first, grid.before))?;
    if let Some(event) = side.call {
        shown.push(Shown {
            event,
            column: grid.before,
        })?;
    }
    let first = grid.before.saturating_add(1);
    add_some(&mut shown, side, behind, 0, (first, grid.columns()))?;
    Ok(shown)
}
