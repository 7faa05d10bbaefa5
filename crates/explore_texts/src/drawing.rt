//! The page of two outcomes.

use crate::findings::Findings;
use order_partings::{Setting, Way, align, events_of};
use script_outcomes::{Outcome, Pair};
use std::alloc::{AllocError, Global};
use xvsh_draws::draw_runs;
use xvsh_explores::ExploreRequest;
use xvsh_read::Start;

// The places of the outcomes that are drawn: those of the pair, or of the only one.
fn drawn_pair(findings: &Findings) -> Pair {
    findings.pair.unwrap_or(Pair { first: 0, other: 1 })
}

// The way to the outcome at this place.
fn way_at<'o>(
    alloc: Global,
    outcomes: &'o [Outcome],
    findings: &Findings,
    place: usize,
) -> Result<Option<Way<'o>>, AllocError> {
    let ways = findings.ways.as_slice();
    let (Some(outcome), Some(pids)) = (outcomes.get(place), ways.get(place)) else {
        return Ok(None);
    };
    Ok(Some(Way {
        out: outcome.out.as_slice(),
        diag: outcome.diag.as_slice(),
        files: &outcome.files,
        full: outcome.full,
        pids: Vec::from_slice(alloc, pids.as_slice())?,
    }))
}

// The ways to the outcomes of a pair, as far as they were found.
fn two_ways<'o>(
    alloc: Global,
    outcomes: &'o [Outcome],
    findings: &Findings,
    pair: Pair,
) -> Result<Vec<Way<'o>>, AllocError> {
    let mut ways = Vec::new(alloc);
    for place in [pair.first, pair.other] {
        if let Some(way) = way_at(alloc, outcomes, findings, place)? {
            ways.push(way)?;
        }
    }
    Ok(ways)
}

// Whether it was found where the ways of a pair part; then they were made alike.
fn is_parted(findings: &Findings, pair: Pair) -> bool {
    match findings.partings.as_slice().get(pair.other) {
        Some(Some(parted)) => parted.from == pair.first,
        _ => false,
    }
}

// The page of the run by a way, or with another of both runs.
fn page_of_runs(
    alloc: Global,
    start: &Start,
    first: &Way<'_>,
    other: Option<&Way<'_>>,
) -> Result<Vec<u8>, AllocError> {
    let one = events_of(alloc, first.pids.as_slice())?;
    let Some(other) = other else {
        return draw_runs(alloc, start, one.as_slice(), None);
    };
    let two = events_of(alloc, other.pids.as_slice())?;
    draw_runs(alloc, start, one.as_slice(), Some(two.as_slice()))
}

// The page of the runs by these ways, of which there are two at most, made alike unless they were.
fn page_of_ways(
    alloc: Global,
    start: &Start,
    are_alike: bool,
    ways: &mut [Way<'_>],
) -> Result<Option<Vec<u8>>, AllocError> {
    let Some((first, others)) = ways.split_first_mut() else {
        return Ok(None);
    };
    if !are_alike {
        let setting = Setting {
            script: &start.script,
            stdin: start.stdin.as_slice(),
            files: &start.files,
        };
        align(alloc, &setting, first, &mut others[0..])?;
    }
    let page = page_of_runs(alloc, start, first, others.first())?;
    Ok(Some(page))
}

/// The page of the runs to the two outcomes that are asked for, or else whose difference is easiest to see, or of the run to the only
/// one; `None` where no page is asked for, or no outcome was found.
pub fn page_of(
    alloc: Global,
    start: &Start,
    request: &ExploreRequest<'_>,
    outcomes: &[Outcome],
    findings: &Findings,
) -> Result<Option<Vec<u8>>, AllocError> {
    if request.draw.is_none() {
        return Ok(None);
    }
    let pair = drawn_pair(findings);
    let mut ways = two_ways(alloc, outcomes, findings, pair)?;
    page_of_ways(alloc, start, is_parted(findings, pair), ways.as_mut_slice())
}
