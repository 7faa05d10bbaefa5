//! Why there is no run.

ghost use Rattle.std.specs.Prelude.{◌≡◌, None, Some};
ghost use Rattle.kernel_threads.specs.Ranges.{AreBadHarts, AreBadTurns};
ghost use Rattle.kernel_threads.specs.declared.faults.RunFault.TheVariants.{BadHarts, BadTurns, Memory, Spent};

use script_load::MAX_TURNS;
use thiserror::Error;

/// The most harts that a run may have (`NCPU` of `kernel/param.h`).
pub const MAX_HARTS: u8 = 8;

/// Why there is no run, or no report of it.
#[derive(Clone, Copy, Debug, PartialEq, Eq, Error)]
pub enum RunFault {
    /// Fault 1: no harts, or more than 8.
    #[error("the number of harts is out of range")]
    BadHarts,
    /// Fault 2: no turns, or more than 1,000,000,000.
    #[error("the number of turns is out of range")]
    BadTurns,
    /// Fault 3: the run isn't finished, no process runs, and fewer than two turns are left.
    #[error("the turns are spent")]
    Spent,
    /// Fault 4: memory was refused outside of a system call, so no process can be answered `Refused`.
    #[error("no memory")]
    Memory,
}

// Why there can be no run on so many harts in so many turns.
pub(crate) fn range_fault(harts: u8, turns: u64) -> Option<RunFault>
    ensures none { result ≡ None → (AreBadHarts harts → ⊥) × (AreBadTurns turns → ⊥) }
    ensures bad_harts { result ≡ Some BadHarts → AreBadHarts harts }
    ensures bad_turns { result ≡ Some BadTurns → (AreBadHarts harts → ⊥) × AreBadTurns turns }
    ensures others { (result ≡ Some Spent → ⊥) × (result ≡ Some Memory → ⊥) }
{
    if harts == 0 || MAX_HARTS < harts {
        Some(RunFault::BadHarts)
    } else if turns == 0 || MAX_TURNS < turns {
        Some(RunFault::BadTurns)
    } else {
        None
    }
}
