//! Names for runs.

use std::marker::Brand;
use std::sync::ledger::Ledger;

/// Names one run of harts, so that the values of two runs don't mix: its seats and its shared kernel are of types that take
/// the name. A call that passes `Brand` picks which run it is, in its proof; at run time there is nothing of it.
///
/// The run's ledger counts events, and has a part for each seat.
pub trait Run: Ledger {
    ghost use Rattle.std.specs.Prelude.{ℕ};
    ghost use base.Stored.{Gv};

    /// What its kernel was booted with, as a tree of numbers.
    ghost boot: { Gv };

    /// How many harts it has.
    ghost harts: { ℕ };

    /// How many events it may have.
    ghost turns: { ℕ };
}

impl Run for Brand {
    ghost use base.Stored.{gnil};

    ghost boot = { gnil };

    ghost harts = { 0 };

    ghost turns = { 0 };
}
