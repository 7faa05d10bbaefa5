//! What a search shows as a whole.
ghost use Rattle.std.specs.Prelude.{◌≡◌, ◌↔◌, IsTrue, None};
ghost use Rattle.script_outcomes.specs.Found.{AreRoomy, AreSingle, Concludes, IsSingle, LeftTheSame, is_whole};

use crate::finding::Found;
use every_order::Outcome;

/// What was found, as a whole.
#[derive(Clone, Copy, Debug, PartialEq, Eq)]
pub enum Conclusion {
    /// Each order that ends leaves one output and one set of files, with nothing full, and none comes to where all processes sleep.
    OneOutput,
    /// Orders leave different outputs or files.
    SeveralOutputs,
    /// Each order that ends leaves the same, with nothing full, but some order leads to where every process sleeps for ever.
    Stuck,
    /// Each order that ends leaves the same, but in one something was full.
    Full,
    /// Not every order was tried.
    Part,
}

// Whether both have one output and one set of files.
fn agree(outcome: &Outcome, other: &Outcome) -> bool
    ensures { IsTrue result ↔ LeftTheSame outcome.now other.now }
{
    outcome.out.as_slice() == other.out.as_slice() && outcome.files.same(&other.files)
}

// Whether there is an outcome, and all have its output and its files.
fn are_single(outcomes: &[Outcome]) -> bool
    ensures { IsTrue result ↔ AreSingle outcomes.now }
{
    match outcomes.split_first() {
        Some((first, rest)) => rest.iter().all(|outcome| agree(first, outcome)),
        None => false,
    }
}

// Whether nothing was full in the run to this one.
fn is_roomy(outcome: &Outcome) -> bool
    ensures { IsTrue result ↔ (outcome.now.full ≡ None) }
{
    outcome.full.is_none()
}

// Whether nothing was full in the runs to all of them.
fn are_roomy(outcomes: &[Outcome]) -> bool
    ensures { IsTrue result ↔ AreRoomy outcomes.now }
{
    outcomes.iter().all(|outcome| is_roomy(outcome))
}

/// Whether every order was tried, or what it leaves is known without.
pub fn is_whole(found: &Found) -> bool
    ensures { result ≡ is_whole found.now }
{
    match found {
        Found::Settled(_) => true,
        Found::Tried(tried) => tried.found.whole,
    }
}

/// Whether something was found, and all that was has one output and one set of files.
pub fn is_single(found: &Found) -> bool
    ensures { IsTrue result ↔ IsSingle found.now }
{
    match found {
        Found::Settled(_) => true,
        Found::Tried(tried) => are_single(tried.found.outcomes.as_slice()),
    }
}

/// What was found, as a whole.
pub fn concluded(found: &Found) -> Conclusion
    ensures { Concludes found.now result }
{
    let Found::Tried(tried) = found else {
        return Conclusion::OneOutput;
    };
    let outcomes = tried.found.outcomes.as_slice();
    if !tried.found.whole {
        Conclusion::Part
    } else if !are_single(outcomes) {
        Conclusion::SeveralOutputs
    } else if !are_roomy(outcomes) {
        Conclusion::Full
    } else if tried.found.stuck.is_some() {
        Conclusion::Stuck
    } else {
        Conclusion::OneOutput
    }
}
