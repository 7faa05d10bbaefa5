//! Numbers up to the most steps that are reported.
ghost use Rattle.std.specs.Prelude.{◌+◌, ◌*◌};
ghost use Rattle.step_bounds.specs.Cost.{IsCapped};

/// The most steps that are reported (own): as many as the turns that a run may have.
pub const MAX_STEPS: u64 = 1_000_000_000;

/// The number, unless it is over the bound.
pub fn capped(n: u64) -> Option<u64>
    ensures { IsCapped n result }
{
    if n <= MAX_STEPS { Some(n) } else { None }
}

/// The sum, unless it is over the bound.
pub fn plus(a: u64, b: u64) -> Option<u64>
    ensures { IsCapped (a + b) result }
{
    match a.checked_add(b) {
        Some(sum) => capped(sum),
        None => None,
    }
}

/// The product, unless it is over the bound.
pub fn times(a: u64, b: u64) -> Option<u64>
    ensures { IsCapped (a * b) result }
{
    match a.checked_mul(b) {
        Some(product) => capped(product),
        None => None,
    }
}
