//! Verdicts that say what others say.

ghost use Rattle.std.specs.Prelude.{◌≡◌, IfOk, IsSomeAnd, MatchOption, None};
ghost use Rattle.grade_verdicts.specs.Same.{IsCopyOf, IsSameDifference, IsSamePlace, IsSameRace};

use crate::verdict::{Difference, Place, Race, Verdict};
use std::alloc::{AllocError, Global};

// The same bytes.
fn copy_bytes(alloc: Global, bytes: &Vec<u8>) -> Result<Vec<u8>, AllocError>
    ensures { IfOk result (λ copy. copy.items ≡ bytes.now.items) }
{
    Vec::from_slice(alloc, bytes.as_slice())
}

// The same place.
fn copy_place(alloc: Global, place: &Place) -> Result<Place, AllocError>
    ensures { IfOk result (IsSamePlace place.now) }
{
    match place {
        Place::Output => Ok(Place::Output),
        Place::File(name) => {
            let name = copy_bytes(alloc, name)?;
            Ok(Place::File(name))
        }
        Place::NoFile(name) => {
            let name = copy_bytes(alloc, name)?;
            Ok(Place::NoFile(name))
        }
    }
}

// The same text, if there is one.
fn copy_text(alloc: Global, text: &Option<Vec<u8>>) -> Result<Option<Vec<u8>>, AllocError>
    ensures { IfOk result (λ copy. MatchOption text.now (copy ≡ None) (λ text. IsSomeAnd copy (λ bytes. bytes.items ≡ text.items))) }
{
    match text {
        None => Ok(None),
        Some(bytes) => {
            let copy = copy_bytes(alloc, bytes)?;
            Ok(Some(copy))
        }
    }
}

// The same difference.
fn copy_difference(alloc: Global, difference: &Difference) -> Result<Difference, AllocError>
    ensures { IfOk result (IsSameDifference difference.now) }
{
    let place = copy_place(alloc, &difference.place)?;
    let expected = copy_text(alloc, &difference.expected)?;
    let found = copy_text(alloc, &difference.found)?;
    Ok(Difference {
        place,
        line: difference.line,
        byte: difference.byte,
        from: difference.from,
        expected,
        found,
    })
}

// The same race.
fn copy_race(alloc: Global, race: &Race) -> Result<Race, AllocError>
    ensures { IfOk result (IsSameRace race.now) }
{
    let right = copy_bytes(alloc, &race.right)?;
    let wrong = copy_bytes(alloc, &race.wrong)?;
    let difference = copy_difference(alloc, &race.difference)?;
    Ok(Race {
        right,
        wrong,
        difference,
    })
}

/// A verdict that says what this one says (own).
pub fn copy_of(alloc: Global, verdict: &Verdict) -> Result<Verdict, AllocError>
    ensures { IfOk result (IsCopyOf verdict.now) }
{
    match verdict {
        Verdict::Pass => Ok(Verdict::Pass),
        Verdict::PassEveryOrder => Ok(Verdict::PassEveryOrder),
        Verdict::Wrong(difference) => {
            let copy = copy_difference(alloc, difference)?;
            Ok(Verdict::Wrong(copy))
        }
        Verdict::WrongSoFar(difference) => {
            let copy = copy_difference(alloc, difference)?;
            Ok(Verdict::WrongSoFar(copy))
        }
        Verdict::Race(race) => {
            let copy = copy_race(alloc, race)?;
            Ok(Verdict::Race(copy))
        }
        Verdict::Unsure(found) => Ok(Verdict::Unsure(*found)),
        Verdict::Refused(refusal) => Ok(Verdict::Refused(*refusal)),
        Verdict::TooLarge => Ok(Verdict::TooLarge),
        Verdict::NoRoom(full) => Ok(Verdict::NoRoom(*full)),
        Verdict::Spent => Ok(Verdict::Spent),
    }
}
