//! Outcomes in which nothing was full, and their diagnostics.

ghost use Rattle.std.specs.Prelude.{◌≡◌, ◌≢◌, ◌↔◌, IsTrue, MatchBool, IfSome, IfNone, All, Contains, None};

use order_search::Outcome;

// Whether nothing was full in the run.
fn is_roomy(outcome: &Outcome) -> bool
    ensures { IsTrue result ↔ (outcome.now.full ≡ None) }
{
    outcome.full.is_none()
}

// Whether these are the run's diagnostics.
fn has_text(outcome: &Outcome, text: &[u8]) -> bool
    ensures { IsTrue result ↔ (outcome.now.diag.items ≡ text.now) }
{
    outcome.diag.as_slice() == text
}

// Whether nothing was full in the run, and it has other diagnostics than these.
fn is_other(outcome: &Outcome, text: &[u8]) -> bool
    ensures { MatchBool result ((outcome.now.full ≡ None) × (outcome.now.diag.items ≢ text.now)) (outcome.now.full ≡ None → outcome.now.diag.items ≡ text.now) }
{
    is_roomy(outcome) && !has_text(outcome, text)
}

/// The first of these outcomes in which nothing was full.
pub fn first_roomy(outcomes: &[Outcome]) -> Option<&Outcome>
    ensures among { IfSome result (λ found. Contains outcomes.now found.now) }
    ensures roomy { IfSome result (λ found. found.now.full ≡ None) }
    ensures none { IfNone result (All (λ outcome. outcome.full ≢ None) outcomes.now) }
{
    for outcome in outcomes {
        if is_roomy(outcome) {
            return Some(outcome);
        }
    }
    None
}

/// The first of these outcomes in which nothing was full, and which has other diagnostics than these.
pub fn first_other<'o>(outcomes: &'o [Outcome], text: &[u8]) -> Option<&'o Outcome>
    ensures among { IfSome result (λ found. Contains outcomes.now found.now) }
    ensures roomy { IfSome result (λ found. found.now.full ≡ None) }
    ensures differs { IfSome result (λ found. found.now.diag.items ≢ text.now) }
    ensures none { IfNone result (All (λ outcome. outcome.full ≡ None → outcome.diag.items ≡ text.now) outcomes.now) }
{
    for outcome in outcomes {
        if is_other(outcome, text) {
            return Some(outcome);
        }
    }
    None
}
