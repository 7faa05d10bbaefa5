//! The cost of commands together.
ghost use Rattle.std.specs.Prelude.{◌≤◌, ◌+◌, ℕ};
ghost use Rattle.step_bounds.specs.Cost.{IsCost};

use crate::capped::MAX_STEPS;
use crate::cost::Cost;

/// The cost of so many bytes and steps.
pub fn cost_of(bytes: u64, steps: u64) -> Option<Cost>
    requires { bytes ≤ steps }
    ensures { IsCost 0 bytes steps result }
{
    if steps <= MAX_STEPS {
        Some(Cost { bytes, steps })
    } else {
        None
    }
}

/// The cost of a redirection, by that of its body.
pub fn redirected(body: Option<Cost>) -> Option<Cost>
    ensures { (more bytes steps : ℕ) → IsCost more bytes steps body → IsCost more bytes (3 + steps) result }
{
    match body {
        Some(body) => cost_of(body.bytes, body.steps + 3),
        None => None,
    }
}

/// The cost of a command and of one behind it, or beside it.
pub fn both(first: Cost, second: Option<Cost>) -> Option<Cost>
    ensures { (more extra bytes steps : ℕ) → extra ≤ first.steps → IsCost (more + extra) bytes steps second → IsCost more (first.bytes + bytes) (2 + (first.steps + steps)) result }
{
    match second {
        Some(second) => cost_of(first.bytes + second.bytes, first.steps + second.steps + 2),
        None => None,
    }
}
