//! Outcomes in the order in which they are listed.
ghost use Rattle.std.specs.Prelude.{◌≡◌, IfOk, map};
ghost use Rattle.std.specs.List.Sorted.{IsPermutation};

use every_order::Outcome;
use std::alloc::{AllocError, Global};
use xvsh_read::listing;

// By what outcomes are listed: the output first, then the files, then the diagnostics.
#[derive(Debug, Drop, PartialEq, Eq, PartialOrd, Ord)]
struct Key {
    out: Vec<u8>,
    files: Vec<u8>,
    diag: Vec<u8>,
}

// An outcome with what it is listed by.
#[derive(Drop)]
struct Keyed {
    key: Key,
    outcome: Outcome,
}

fn key_of(alloc: Global, outcome: &Outcome) -> Result<Key, AllocError> {
    Ok(Key {
        out: Vec::from_slice(alloc, outcome.out.as_slice())?,
        files: listing(alloc, &outcome.files, &[])?,
        diag: Vec::from_slice(alloc, outcome.diag.as_slice())?,
    })
}

fn with_keys(alloc: Global, outcomes: Vec<Outcome>) -> Result<Vec<Keyed>, AllocError>
    ensures { IfOk result (λ keyed. map (λ k. k.outcome) keyed.items ≡ outcomes.items) }
{
    let mut keyed = Vec::new(alloc);
    for outcome in outcomes {
        let key = key_of(alloc, &outcome)?;
        keyed.push(Keyed { key, outcome })?;
    }
    Ok(keyed)
}

fn without_keys(alloc: Global, keyed: Vec<Keyed>) -> Result<Vec<Outcome>, AllocError>
    ensures { IfOk result (λ outcomes. outcomes.items ≡ map (λ k. k.outcome) keyed.items) }
{
    keyed.into_iter().map(|it| it.outcome).collect(alloc)
}

/// The outcomes, by output, then files, then diagnostics, each byte by byte (own).
pub fn sorted(alloc: Global, outcomes: Vec<Outcome>) -> Result<Vec<Outcome>, AllocError>
    ensures { IfOk result (λ sorted. IsPermutation outcomes.items sorted.items) }
{
    let mut keyed = with_keys(alloc, outcomes)?;
    keyed.sort_by(|one, other| one.key.cmp(&other.key))?;
    let sorted = without_keys(alloc, keyed)?;
    Ok(sorted)
}
