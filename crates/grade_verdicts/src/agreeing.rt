//! Whether what a run left is what is expected.

ghost use Rattle.std.specs.Prelude.{◌≡◌, ◌↔◌, false, None, IsTrue, IfSome, All, Contains};
ghost use Rattle.mem_files.specs.Files.{files};
ghost use Rattle.prog_parts.specs.NameSets.{among};
ghost use Rattle.grade_verdicts.specs.Agrees.{Agrees, AgreesWith, HasFile};

use crate::expected::{Expected, ExpectedFile};
use every_order::Outcome;
use mem_files::Files;
use prog_parts::is_among;
use sh_tree::Words;
use std::alloc::{Allocator, Global};

// Whether the file is there with its bytes.
fn has_file<C: Allocator>(store: &Files<C>, file: &ExpectedFile) -> bool
    ensures { IsTrue result ↔ HasFile (files store.now) file.now }
{
    match store.get(file.name.as_slice()) {
        Some(bytes) => bytes == file.bytes.as_slice(),
        None => false,
    }
}

// Whether each of these files is.
fn has_files<C: Allocator>(store: &Files<C>, expected: &[ExpectedFile]) -> bool
    ensures { IsTrue result ↔ All (HasFile (files store.now)) expected.now }
{
    expected.iter().all(|file| has_file(store, file))
}

/// Whether the output and the files are what is expected.
pub fn agrees<C: Allocator>(expected: &Expected, out: &[u8], store: &Files<C>) -> bool
    ensures { IsTrue result ↔ Agrees expected.now out.now (files store.now) }
{
    out == expected.out.as_slice() && has_files(store, expected.files.as_slice())
}

// Whether the file is none of the soft ones.
fn is_firm(soft: &Words<Global>, file: &ExpectedFile) -> bool
    ensures { IsTrue result ↔ (among soft.now file.now.name.items ≡ false) }
{
    !is_among(soft.as_slice(), file.name.as_slice())
}

/// Whether no file that is expected is one of the soft ones.
pub fn are_firm(soft: &Words<Global>, expected: &Expected) -> bool
    ensures { IsTrue result ↔ All (λ file. among soft.now file.name.items ≡ false) expected.now.files.items }
{
    expected.files.iter().all(|file| is_firm(soft, file))
}

// Whether the outcome is what is expected.
fn is_agreed(expected: &Expected, outcome: &Outcome) -> bool
    ensures { IsTrue result ↔ AgreesWith expected.now outcome.now }
{
    agrees(expected, outcome.out.as_slice(), &outcome.files)
}

/// The first of these outcomes that is what is expected.
pub fn first_right<'o>(expected: &Expected, outcomes: &'o [Outcome]) -> Option<&'o Outcome>
    ensures among { IfSome result (λ outcome. Contains outcomes.now outcome.now) }
    ensures agrees { IfSome result (λ outcome. AgreesWith expected.now outcome.now) }
    ensures none { result ≡ None → All (λ outcome. AgreesWith expected.now outcome → ⊥) outcomes.now }
{
    outcomes
        .iter()
        .find(|outcome| is_agreed(expected, *outcome))
}

/// The first of these outcomes that isn't.
pub fn first_wrong<'o>(expected: &Expected, outcomes: &'o [Outcome]) -> Option<&'o Outcome>
    ensures among { IfSome result (λ outcome. Contains outcomes.now outcome.now) }
    ensures differs { IfSome result (λ outcome. AgreesWith expected.now outcome.now → ⊥) }
    ensures none { result ≡ None → All (AgreesWith expected.now) outcomes.now }
{
    outcomes
        .iter()
        .find(|outcome| !is_agreed(expected, *outcome))
}

/// The first of these outcomes in whose run nothing was full.
pub fn first_roomy(outcomes: &[Outcome]) -> Option<&Outcome>
    ensures among { IfSome result (λ outcome. Contains outcomes.now outcome.now) }
    ensures roomy { IfSome result (λ outcome. outcome.now.full ≡ None) }
{
    outcomes.iter().find(|outcome| outcome.full.is_none())
}

/// The first of these outcomes in whose run something was full.
pub fn first_filled(outcomes: &[Outcome]) -> Option<&Outcome>
    ensures { IfSome result (λ outcome. Contains outcomes.now outcome.now) }
{
    outcomes.iter().find(|outcome| outcome.full.is_some())
}
