//! What two outcomes differ in.

ghost use Rattle.std.specs.Prelude.{◌≡◌, ◌≢◌, ◌⊎◌, ◌↔◌, IsTrue, []};
ghost use Rattle.script_outcomes.specs.Contrast.{IsContrast, IsTorn, counted, weight_of};

use order_search::Outcome;

/// What two outcomes differ in.
#[derive(Clone, Copy, Debug, PartialEq, Eq)]
pub struct Contrast {
    /// Both print the same.
    pub is_same_output: bool,
    pub has_other_diagnostics: bool,
    pub has_other_files: bool,
    /// Something else was full first.
    pub is_other_full: bool,
    /// One of the two has diagnostics.
    pub has_diagnostics: bool,
    /// The last line of one of the two outputs has no end.
    pub is_torn: bool,
}

// Whether the last byte ends no line.
fn is_torn(bytes: &[u8]) -> bool
    ensures { IsTrue result ↔ IsTorn bytes.now }
{
    !bytes.is_empty() && bytes[bytes.len() - 1] != b'\n'
}

// Whether one of the two has diagnostics.
fn has_diagnostics(one: &Outcome, other: &Outcome) -> bool
    ensures { IsTrue result ↔ ((one.now.diag.items ≢ []) ⊎ (other.now.diag.items ≢ [])) }
{
    !one.diag.is_empty() || !other.diag.is_empty()
}

// Whether the last line of one of the two outputs has no end.
fn has_torn(one: &Outcome, other: &Outcome) -> bool
    ensures { IsTrue result ↔ (IsTorn one.now.out.items ⊎ IsTorn other.now.out.items) }
{
    is_torn(one.out.as_slice()) || is_torn(other.out.as_slice())
}

fn counted(is_so: bool) -> u32
    ensures { result ≡ counted is_so }
{
    if is_so { 1 } else { 0 }
}

impl Contrast {
    /// What the two differ in.
    pub fn between(one: &Outcome, other: &Outcome) -> Contrast
        ensures { IsContrast one.now other.now result }
    {
        Contrast {
            is_same_output: one.out == other.out,
            has_other_diagnostics: one.diag != other.diag,
            has_other_files: !one.files.same(&other.files),
            is_other_full: one.full != other.full,
            has_diagnostics: has_diagnostics(one, other),
            is_torn: has_torn(one, other),
        }
    }

    /// How hard the difference is to see: least where the two print different texts and leave the same else.
    pub fn weight(&self) -> u32
        ensures { result ≡ weight_of self.now }
    {
        let others = counted(self.has_other_diagnostics)
            + (counted(self.has_other_files) + counted(self.is_other_full));
        16 * counted(self.is_same_output)
            + (4 * others + (2 * counted(self.has_diagnostics) + counted(self.is_torn)))
    }
}
