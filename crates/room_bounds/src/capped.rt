//! Numbers up to the most that are reported.
ghost use Rattle.std.specs.Prelude.{◌+◌, ◌≤◌, max, ℕ};
ghost use Rattle.room_bounds.specs.Capped.{IsCapped};

/// The most that is reported (own): far more than any table of xv6 has.
pub const MAX_COUNT: u64 = 1_000_000;

// The number, if it is reported.
pub fn capped(n: u64) -> Option<u64>
    ensures { IsCapped n result }
{
    if n <= MAX_COUNT { Some(n) } else { None }
}

// One more.
pub fn one_more(a: Option<u64>) -> Option<u64>
    ensures { (m : ℕ) → IsCapped m a → IsCapped (1 + m) result }
{
    match a {
        Some(a) if a <= MAX_COUNT => capped(a + 1),
        _ => None,
    }
}

// The sum of both and so many more.
pub fn sum_with(more: u64, a: Option<u64>, b: Option<u64>) -> Option<u64>
    requires { more ≤ 3 }
    ensures { (m n : ℕ) → IsCapped m a → IsCapped n b → IsCapped (more + m + n) result }
{
    match (a, b) {
        (Some(a), Some(b)) if a <= MAX_COUNT && b <= MAX_COUNT => capped(more + a + b),
        _ => None,
    }
}

// The sum of both.
pub fn sum(a: Option<u64>, b: Option<u64>) -> Option<u64>
    ensures { (m n : ℕ) → IsCapped m a → IsCapped n b → IsCapped (m + n) result }
{
    sum_with(0, a, b)
}

// The larger one.
pub fn larger(a: Option<u64>, b: Option<u64>) -> Option<u64>
    ensures { (m n : ℕ) → IsCapped m a → IsCapped n b → IsCapped (max m n) result }
{
    match (a, b) {
        (Some(a), Some(b)) => Some(if a < b { b } else { a }),
        _ => None,
    }
}
