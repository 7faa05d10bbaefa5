//! Where outcomes stand in a list.

ghost use Rattle.std.specs.Prelude.{◌≡◌, ◌↔◌, IsTrue, IfOk, All, Contains, map, slice_get, true};
ghost use Rattle.order_search.specs.Told.{outcome_by};
ghost use Rattle.play_states.specs.Plays.{AreAt, IsAt, IsOneOf};

use crate::fault::PlayFault;
use every_order::Outcome;
use std::alloc::Global;

// Whether both are one outcome, whatever leads to them.
fn same(one: &Outcome, other: &Outcome) -> bool
    ensures { IsTrue result ↔ (outcome_by one.now ≡ outcome_by other.now) }
{
    one.full == other.full
        && one.out.as_slice() == other.out.as_slice()
        && one.diag.as_slice() == other.diag.as_slice()
        && one.files.same(&other.files)
}

// Whether the outcome is one of the list.
fn has(list: &[Outcome], outcome: &Outcome) -> bool
    ensures { result ≡ true → Contains (map outcome_by list.now) (outcome_by outcome.now) }
{
    for other in list {
        if same(other, outcome) {
            return true;
        }
    }
    false
}

// Whether the outcome of that place is one of those that were found.
fn is_found(outcomes: &[Outcome], found: &[Outcome], place: usize) -> bool
    ensures { result ≡ true → IsOneOf (map outcome_by outcomes.now) (map outcome_by found.now) place }
{
    if place >= outcomes.len() {
        return false;
    }
    has(found, &outcomes[place])
}

// Whether the outcomes of these places are all of those that were found.
fn are_found(outcomes: &[Outcome], found: &[Outcome], places: &[usize]) -> bool
    ensures { result ≡ true → All (IsOneOf (map outcome_by outcomes.now) (map outcome_by found.now)) places.now }
{
    for place in places {
        if !is_found(outcomes, found, *place) {
            return false;
        }
    }
    true
}

// Whether the outcome is that of the place.
fn is_there(outcomes: &[Outcome], place: usize, outcome: &Outcome) -> bool
    ensures { result ≡ true → slice_get (map outcome_by outcomes.now) place ≡ Some (outcome_by outcome.now) }
{
    if place >= outcomes.len() {
        return false;
    }
    same(&outcomes[place], outcome)
}

// Whether the outcome is that of one of these places.
fn is_placed(outcomes: &[Outcome], places: &[usize], outcome: &Outcome) -> bool
    ensures { result ≡ true → IsAt (map outcome_by outcomes.now) places.now (outcome_by outcome.now) }
{
    for place in places {
        if is_there(outcomes, *place, outcome) {
            return true;
        }
    }
    false
}

// Whether each of those that were found is the outcome of one of these places.
fn are_placed(outcomes: &[Outcome], places: &[usize], found: &[Outcome]) -> bool
    ensures { result ≡ true → All (λ o. IsAt (map outcome_by outcomes.now) places.now (outcome_by o)) found.now }
{
    for outcome in found {
        if !is_placed(outcomes, places, outcome) {
            return false;
        }
    }
    true
}

// The places of those of the outcomes that were found, ascending.
fn listed(alloc: Global, outcomes: &[Outcome], found: &[Outcome]) -> Result<Vec<usize>, PlayFault> {
    let mut places = Vec::new(alloc);
    for place in 0..outcomes.len() {
        if is_found(outcomes, found, place) {
            places.push(place)?;
        }
    }
    Ok(places)
}

// The places in the list of what was found, ascending.
//
// The fault is `Astray` where one of those that were found isn't in the list.
pub fn places_of(
    alloc: Global,
    outcomes: &[Outcome],
    found: &[Outcome],
) -> Result<Vec<usize>, PlayFault>
    ensures { IfOk result (λ places. AreAt (map outcome_by outcomes.now) (map outcome_by found.now) places.items) }
{
    let places = listed(alloc, outcomes, found)?;
    if !are_found(outcomes, found, &places) {
        return Err(PlayFault::Astray);
    }
    if !are_placed(outcomes, &places, found) {
        return Err(PlayFault::Astray);
    }
    Ok(places)
}
