//! Whether two tests are one.

ghost use Rattle.std.specs.Prelude.{◌≡◌, ◌↔◌, IsTrue, map};
ghost use Rattle.grade_verdicts.specs.Same.{IsSameExpected, IsSameTask, named};

use crate::expected::{Expected, ExpectedFile, Task};

// Whether both files have this name and these bytes.
fn is_same_file(one: &ExpectedFile, other: &ExpectedFile) -> bool
    ensures { IsTrue result ↔ (named one.now ≡ named other.now) }
{
    one.name.as_slice() == other.name.as_slice() && one.bytes.as_slice() == other.bytes.as_slice()
}

// Whether both are these files, in this order.
fn are_same_files(one: &[ExpectedFile], other: &[ExpectedFile]) -> bool
    ensures { IsTrue result ↔ (map named one.now ≡ map named other.now) }
{
    if one.len() != other.len() {
        return false;
    }
    for i in 0..one.len() {
        if !is_same_file(&one[i], &other[i]) {
            return false;
        }
    }
    true
}

// Whether both expect the same.
fn is_same_expected(one: &Expected, other: &Expected) -> bool
    ensures { IsTrue result ↔ IsSameExpected one.now other.now }
{
    one.out.as_slice() == other.out.as_slice()
        && are_same_files(one.files.as_slice(), other.files.as_slice())
}

// Whether both set the same limits.
fn has_same_limits(one: &Task<'_>, other: &Task<'_>) -> bool
    ensures { IsTrue result ↔ (one.now.bytes ≡ other.now.bytes) × (one.now.states ≡ other.now.states) × (one.now.turns ≡ other.now.turns) }
{
    one.bytes == other.bytes && one.states == other.states && one.turns == other.turns
}

/// Whether two tests are one (own): both have the same profile, input, files and limits, and expect the same, byte by byte.
pub fn is_same_task(one: &Task<'_>, other: &Task<'_>) -> bool
    ensures { IsTrue result ↔ IsSameTask one.now other.now }
{
    one.profile == other.profile
        && has_same_limits(one, other)
        && one.stdin == other.stdin
        && one.files.same(other.files)
        && is_same_expected(one.expected, other.expected)
}
