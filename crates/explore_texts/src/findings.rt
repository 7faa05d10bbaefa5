//! Schedules that lead to the outcomes, and where these part.

use order_partings::{Parting, Setting, Way, align, events_of, part};
use schedule_lines::schedule_text;
use script_outcomes::{Outcome, Pair};
use std::alloc::{AllocError, Global};
use xvsh_explores::ExploreRequest;

/// Where the schedules of two outcomes part.
#[derive(Drop)]
pub struct Parted {
    /// The place of the first of the two.
    pub from: usize,
    pub parting: Parting,
}

/// How the outcomes are reached, in their order.
#[derive(Drop)]
pub struct Findings {
    /// A schedule of each: the processes in the order of their turns.
    pub ways: Vec<Vec<u8>>,
    /// Where the schedule of each and that of one before it part, where that is shown.
    pub partings: Vec<Option<Parted>>,
    /// The two that are asked for, or those whose difference is easiest to see, if there are two.
    pub pair: Option<Pair>,
}

// Of so many outcomes each is compared with the first, unless a pair is asked for; of more only the two whose difference is easiest to
// see are.
const MOST_PARTED: usize = 4;

// The way to an outcome that was found.
fn way_to<'o>(alloc: Global, outcome: &'o Outcome) -> Result<Way<'o>, AllocError> {
    Ok(Way {
        out: outcome.out.as_slice(),
        diag: outcome.diag.as_slice(),
        files: &outcome.files,
        full: outcome.full,
        pids: Vec::from_slice(alloc, outcome.pids.as_slice())?,
    })
}

// The ways to the outcomes, in their order.
fn ways_to<'o>(alloc: Global, outcomes: &'o [Outcome]) -> Result<Vec<Way<'o>>, AllocError> {
    let mut ways = Vec::new(alloc);
    for outcome in outcomes {
        ways.push(way_to(alloc, outcome)?)?;
    }
    Ok(ways)
}

// Where the ways to two outcomes part, of which the first has this place.
fn part_two(
    alloc: Global,
    setting: &Setting<'_, Global, Global>,
    (from, one): (usize, &Way<'_>),
    other: &Way<'_>,
) -> Result<Option<Parted>, AllocError> {
    let parting = part(alloc, setting, one.pids.as_slice(), other.pids.as_slice())?;
    Ok(parting.map(|parting| Parted { from, parting }))
}

// Makes all ways alike, and returns where each and the first part.
fn part_all(
    alloc: Global,
    setting: &Setting<'_, Global, Global>,
    ways: &mut [Way<'_>],
) -> Result<Vec<Option<Parted>>, AllocError> {
    let mut partings = Vec::new(alloc);
    let Some((first, others)) = ways.split_first_mut() else {
        return Ok(partings);
    };
    align(alloc, setting, first, &mut others[0..])?;
    partings.push(None)?;
    for other in others.iter() {
        partings.push(part_two(alloc, setting, (0, first), other)?)?;
    }
    Ok(partings)
}

// Makes the ways of a pair alike, and returns where they part, with nothing of the others.
fn part_pair(
    alloc: Global,
    setting: &Setting<'_, Global, Global>,
    ways: &mut [Way<'_>],
    pair: Pair,
) -> Result<Vec<Option<Parted>>, AllocError> {
    let mut partings = Vec::new(alloc);
    for _way in 0..ways.len().min(pair.other) {
        partings.push(None)?;
    }
    let (before, from_other) = ways.split_at_mut(pair.other.min(ways.len()));
    let (Some(one), Some(_)) = (before.get_mut(pair.first), from_other.first()) else {
        return Ok(partings);
    };
    align(alloc, setting, one, &mut from_other[..1])?;
    partings.push(part_two(alloc, setting, (pair.first, one), &from_other[0])?)?;
    Ok(partings)
}

// Makes ways alike, and returns where they part: all and the first, or of many, or where a pair is asked for, those of the pair.
fn part_some(
    alloc: Global,
    setting: &Setting<'_, Global, Global>,
    ways: &mut [Way<'_>],
    pair: Option<Pair>,
    is_asked: bool,
) -> Result<Vec<Option<Parted>>, AllocError> {
    match pair {
        Some(pair) if is_asked || ways.len() > MOST_PARTED => part_pair(alloc, setting, ways, pair),
        _ => part_all(alloc, setting, ways),
    }
}

/// A schedule of each outcome, and where these part: all and the first, or of many, or where it is asked for, those of the pair.
pub fn findings_of(
    alloc: Global,
    setting: &Setting<'_, Global, Global>,
    outcomes: &[Outcome],
    pair: Option<Pair>,
    is_asked: bool,
) -> Result<Findings, AllocError> {
    let mut found = ways_to(alloc, outcomes)?;
    let partings = part_some(alloc, setting, found.as_mut_slice(), pair, is_asked)?;
    let mut ways = Vec::new(alloc);
    for way in found {
        ways.push(way.pids)?;
    }
    Ok(Findings {
        ways,
        partings,
        pair,
    })
}

/// The schedule of each outcome as text, where the request asks for them; else none.
pub fn schedules_of(
    alloc: Global,
    request: &ExploreRequest<'_>,
    findings: &Findings,
) -> Result<Vec<Vec<u8>>, AllocError> {
    let mut schedules = Vec::new(alloc);
    if request.witness.is_some() {
        for pids in &findings.ways {
            let events = events_of(alloc, pids.as_slice())?;
            schedules.push(schedule_text(alloc, events.as_slice())?)?;
        }
    }
    Ok(schedules)
}
