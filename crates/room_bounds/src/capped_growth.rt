//! Numbers up to the most that is reported.
ghost use Rattle.std.specs.Prelude.{◌+◌, ◌*◌, ◌<◌, ℕ};
ghost use Rattle.room_bounds.specs.CappedGrowth.{IsCapped};

/// The most bytes that are reported (own): far more than a file of xv6 can hold.
pub const MAX_GROWTH: u64 = 1_000_000_000;

// The number, if it is reported.
pub fn capped(n: u64) -> Option<u64>
    ensures { IsCapped n result }
{
    if n <= MAX_GROWTH { Some(n) } else { None }
}

// The sum of both.
pub fn sum(a: Option<u64>, b: Option<u64>) -> Option<u64>
    ensures { (m n : ℕ) → IsCapped m a → IsCapped n b → IsCapped (m + n) result }
{
    match (a, b) {
        (Some(a), Some(b)) if a <= MAX_GROWTH && b <= MAX_GROWTH => capped(a + b),
        _ => None,
    }
}

// So many times the number.
pub fn times(a: Option<u64>, count: u64) -> Option<u64>
    requires { 0 < count }
    ensures { (m : ℕ) → IsCapped m a → IsCapped (m * count) result }
{
    let Some(a) = a else {
        return None;
    };
    match a.checked_mul(count) {
        Some(product) => capped(product),
        None => None,
    }
}
