//! Two outcomes of a list.

ghost use Rattle.std.specs.Prelude.{◌≡◌, ◌⊎◌, ℕ, ◌<◌, ◌≤◌, Some, None, IfSome, IfNone, length};
ghost use Rattle.script_outcomes.specs.Pairs.{IsClearest, IsLeastWith, IsPair, IsWeighed, Weighs};

use crate::contrast::Contrast;
use order_search::Outcome;

/// How many outcomes at the front of a list pairs are made of (own).
pub const MOST_PAIRED: usize = 64;

/// Two outcomes of a list, by their places, counted from 0.
#[derive(Clone, Copy, Debug, PartialEq, Eq)]
pub struct Pair {
    pub first: usize,
    pub other: usize,
}

// A pair, and how hard its difference is to see.
#[derive(Clone, Copy)]
struct Weighed {
    pair: Pair,
    weight: u32,
}

// The pair at these places.
fn weigh(outcomes: &[Outcome], first: usize, other: usize) -> Weighed
    requires first { first < length outcomes.now }
    requires other { other < length outcomes.now }
    ensures first { result.pair.first ≡ first }
    ensures other { result.pair.other ≡ other }
    ensures weight { Weighs outcomes.now result.pair result.weight }
{
    let contrast = Contrast::between(&outcomes[first], &outcomes[other]);
    Weighed {
        pair: Pair { first, other },
        weight: contrast.weight(),
    }
}

// The clearer of two pairs; of two alike the one so far.
fn clearer(so_far: Weighed, next: Weighed) -> Weighed
    ensures one { (result ≡ so_far) ⊎ (result ≡ next) }
    ensures before { result.weight ≤ so_far.weight }
    ensures after { result.weight ≤ next.weight }
{
    if next.weight < so_far.weight {
        next
    } else {
        so_far
    }
}

// The clearer of the pair so far and those with this place as the other one.
fn clearer_with(outcomes: &[Outcome], so_far: Weighed, other: usize) -> Weighed
    requires other { other < length outcomes.now }
    requires near { other < MOST_PAIRED }
    requires so_far { IsWeighed outcomes.now so_far.pair so_far.weight }
    ensures weighed { IsWeighed outcomes.now result.pair result.weight }
    ensures before { result.weight ≤ so_far.weight }
    ensures least { IsLeastWith outcomes.now other other result.weight }
{
    let mut clearest = so_far;
    for first in 0..other {
        clearest = clearer(clearest, weigh(outcomes, first, other));
    }
    clearest
}

/// The pair whose difference is easiest to see, of the first `MOST_PAIRED` outcomes; `None` of fewer than two (own). Easiest are two
/// that print different texts, of these such that leave the same else, then such without diagnostics, and then such whose outputs end
/// with a whole line.
pub fn clearest_pair(outcomes: &[Outcome]) -> Option<Pair>
    ensures clearest { IfSome result (IsClearest outcomes.now) }
    ensures few { IfNone result (length outcomes.now < 2) }
{
    let count = outcomes.len().min(MOST_PAIRED);
    if count < 2 {
        return None;
    }
    let mut clearest = weigh(outcomes, 0, 1);
    for other in 1..count {
        clearest = clearer_with(outcomes, clearest, other);
    }
    Some(clearest.pair)
}

/// The pair that is shown: the one that is asked for, and none where that isn't there; without such, the one whose difference is easiest
/// to see.
pub fn shown_pair(outcomes: &[Outcome], asked: Option<Pair>) -> Option<Pair>
    ensures asked { (pair : Pair) → asked ≡ Some pair → pair.other < length outcomes.now → result ≡ Some pair }
    ensures missing { (pair : Pair) → asked ≡ Some pair → length outcomes.now ≤ pair.other → result ≡ None }
    ensures clearest { asked ≡ None → IfSome result (IsClearest outcomes.now) }
{
    match asked {
        Some(pair) => {
            if pair.other < outcomes.len() {
                Some(pair)
            } else {
                None
            }
        }
        None => clearest_pair(outcomes),
    }
}
