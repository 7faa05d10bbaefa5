//! Schedules of two outcomes that are made alike.

use crate::turns::events_of;
use kernel_events::{Report, Setting};
use kernel_model::Full;
use kernel_runs::{ReplayFault, replay};
use mem_files::Files;
use std::alloc::{AllocError, Global};

/// A schedule that leads to an outcome, and what that leaves.
#[derive(Drop)]
pub struct Way<'a> {
    /// What is written to the standard output.
    pub out: &'a [u8],
    /// What is written as diagnostics.
    pub diag: &'a [u8],
    pub files: &'a Files<Global>,
    /// What is full first, if something is.
    pub full: Option<Full>,
    /// The processes in the order of their turns.
    pub pids: Vec<u8>,
}

// Whether a run came to the outcome of the way.
fn is_of(report: &Report<Global>, way: &Way<'_>) -> bool {
    report.full == way.full
        && report.out.as_slice() == way.out
        && report.diag.as_slice() == way.diag
        && report.files.same(way.files)
}

// Whether turns of these processes lead to the outcome of the way.
fn leads_to(
    alloc: Global,
    setting: &Setting<'_, Global, Global>,
    pids: &[u8],
    way: &Way<'_>,
) -> Result<bool, AllocError> {
    let events = events_of(alloc, pids)?;
    match replay(
        alloc,
        setting.script,
        setting.stdin,
        setting.files,
        events.as_slice(),
    ) {
        Ok(report) => Ok(is_of(&report, way)),
        Err(ReplayFault::Memory) => Err(AllocError),
        Err(_) => Ok(false),
    }
}

/// How many turns both begin with.
pub(crate) fn shared(one: &[u8], other: &[u8]) -> usize {
    let mut count: usize = 0;
    for (a, b) in one.iter().zip(other) {
        if a != b {
            break;
        }
        count = count.saturating_add(1);
    }
    count
}

// These turns, with the next one of this process brought forward to the place; `None` where it has none.
fn brought(
    alloc: Global,
    pids: &[u8],
    place: usize,
    pid: u8,
) -> Result<Option<Vec<u8>>, AllocError> {
    let mut made = Vec::from_slice(alloc, &pids[..place.min(pids.len())])?;
    made.push(pid)?;
    let mut is_found = false;
    for other in pids.iter().skip(place) {
        if !is_found && *other == pid {
            is_found = true;
        } else {
            made.push(*other)?;
        }
    }
    Ok(if is_found { Some(made) } else { None })
}

// The turns of a way, with the next one of this process brought forward to the place; `None` where they don't lead to its
// outcome.
fn moved(
    alloc: Global,
    setting: &Setting<'_, Global, Global>,
    way: &Way<'_>,
    place: usize,
    pid: u8,
) -> Result<Option<Vec<u8>>, AllocError> {
    let Some(made) = brought(alloc, way.pids.as_slice(), place, pid)? else {
        return Ok(None);
    };
    if leads_to(alloc, setting, made.as_slice(), way)? {
        Ok(Some(made))
    } else {
        Ok(None)
    }
}

// Whose turn a way has at this place.
fn turn_of(way: &Way<'_>, place: usize) -> Option<u8> {
    way.pids.as_slice().get(place).copied()
}

// Has the other way take the first one's turn at the place too, if it leads to its outcome then, and returns whether it does.
fn follow(
    alloc: Global,
    setting: &Setting<'_, Global, Global>,
    first: &Way<'_>,
    other: &mut Way<'_>,
    place: usize,
) -> Result<bool, AllocError> {
    let Some(pid) = turn_of(first, place) else {
        return Ok(false);
    };
    match moved(alloc, setting, other, place, pid)? {
        Some(pids) => {
            other.pids = pids;
            Ok(true)
        }
        None => Ok(false),
    }
}

// The turns of another way, with the next one of this process brought forward to the place where it goes with the first way past
// that; `None` where they don't lead to its outcome.
fn moved_with(
    alloc: Global,
    setting: &Setting<'_, Global, Global>,
    first: &Way<'_>,
    other: &Way<'_>,
    (place, pid): (usize, u8),
) -> Result<Option<Vec<u8>>, AllocError> {
    let pids = other.pids.as_slice();
    if shared(first.pids.as_slice(), pids) <= place {
        return Ok(Some(Vec::from_slice(alloc, pids)?));
    }
    moved(alloc, setting, other, place, pid)
}

// The same of each of the other ways.
fn all_moved(
    alloc: Global,
    setting: &Setting<'_, Global, Global>,
    first: &Way<'_>,
    others: &[Way<'_>],
    (place, pid): (usize, u8),
) -> Result<Option<Vec<Vec<u8>>>, AllocError> {
    let mut made = Vec::new(alloc);
    for other in others {
        match moved_with(alloc, setting, first, other, (place, pid))? {
            Some(pids) => made.push(pids)?,
            None => return Ok(None),
        }
    }
    Ok(Some(made))
}

// Has the first way take the turn of this process at the place, and all ways that go with it past the place, if each leads to
// its outcome then, and returns whether they do.
fn lead(
    alloc: Global,
    setting: &Setting<'_, Global, Global>,
    first: &mut Way<'_>,
    others: &mut [Way<'_>],
    (place, pid): (usize, u8),
) -> Result<bool, AllocError> {
    let Some(pids) = moved(alloc, setting, first, place, pid)? else {
        return Ok(false);
    };
    let Some(made) = all_moved(alloc, setting, first, others, (place, pid))? else {
        return Ok(false);
    };
    first.pids = pids;
    for (other, pids) in others.iter_mut().zip(made) {
        other.pids = pids;
    }
    Ok(true)
}

// How many turns are taken in the search for alike schedules, about; and to how many a block of bytes of a file counts.
const MOST_TURNS: usize = 400_000;

const BLOCK_SIZE: usize = 1024;

// How many schedules of so many turns are tried.
fn tries_of(setting: &Setting<'_, Global, Global>, turns: usize) -> usize {
    let mut cost = turns.saturating_add(1);
    for place in 0..setting.files.count() {
        let name = setting.files.name_at(place).unwrap_or(&[]);
        let bytes = setting.files.get(name).unwrap_or(&[]);
        cost = cost.saturating_add(bytes.len() / BLOCK_SIZE);
    }
    MOST_TURNS.checked_div(cost).unwrap_or(0)
}

// Has the first way and the other of this number begin with one more turn, if that can be, and returns whether they do.
fn step(
    alloc: Global,
    setting: &Setting<'_, Global, Global>,
    first: &mut Way<'_>,
    others: &mut [Way<'_>],
    number: usize,
) -> Result<bool, AllocError> {
    let Some(other) = others.get_mut(number) else {
        return Ok(false);
    };
    let place = shared(first.pids.as_slice(), other.pids.as_slice());
    if follow(alloc, setting, first, other, place)? {
        return Ok(true);
    }
    match turn_of(other, place) {
        Some(pid) => lead(alloc, setting, first, others, (place, pid)),
        None => Ok(false),
    }
}

/// Makes the schedule of each of the other ways like that of the first one, from the beginning on, the last one first. Each stays
/// as long as it is, and leads to its outcome. Where the search wasn't too long, two that part can't take each other's turn first
/// and still lead to their outcomes by the rest of their own, and without change of a third.
pub fn align(
    alloc: Global,
    setting: &Setting<'_, Global, Global>,
    first: &mut Way<'_>,
    others: &mut [Way<'_>],
) -> Result<(), AllocError> {
    let mut tries = tries_of(setting, first.pids.len());
    for number in (0..others.len()).rev() {
        for _ in 0..tries {
            tries = tries.saturating_sub(1);
            if !step(alloc, setting, first, others, number)? {
                break;
            }
        }
    }
    Ok(())
}
