//! What an exploration of a script reports of its diagnostics.

ghost use Rattle.std.specs.Prelude.{◌≡◌, ◌≢◌, ◌↔◌, IsTrue, IfOk, All, Contains, None};
ghost use Rattle.script_load.specs.Line.{lines_of};
ghost use Rattle.sh_machine.specs.State.{User};
ghost use Rattle.kernel_model.specs.KernelState.{KernelState};
ghost use Rattle.every_order.specs.Known.{AreFoundFrom, IsKnown, IsKnownFrom};

use crate::exploring::explore;
use crate::known::Diagnostics;
use crate::outcomes::{first_other, first_roomy};
use mem_files::Files;
use order_search::{Exploration, ExploreFault, Outcome};
use script_load::Script;
use std::alloc::{AllocError, Allocator, Global};

/// Through how many states orders are tried, where it isn't said (own).
pub const STATES: usize = 20_000;

// Whether nobody was found who sleeps for ever.
fn is_awake(found: &Exploration) -> bool
    ensures { IsTrue result ↔ (found.now.stuck ≡ None) }
{
    found.stuck.is_none()
}

// What is known where in each outcome that was found something was full.
fn known_full(found: &Exploration) -> Diagnostics
    requires { All (λ outcome. outcome.full ≢ None) found.now.outcomes.items }
    ensures { (start : KernelState User) → AreFoundFrom start found.now → IsKnownFrom start result }
{
    if !found.whole {
        Diagnostics::Untried
    } else if is_awake(found) {
        Diagnostics::Full
    } else {
        Diagnostics::Asleep
    }
}

// What is known where the outcomes that were found have the diagnostics of this one, but for those in which something was full.
fn known_same(alloc: Global, found: &Exploration, one: &Outcome) -> Result<Diagnostics, AllocError>
    requires among { Contains found.now.outcomes.items one.now }
    requires roomy { one.now.full ≡ None }
    requires same { All (λ outcome. outcome.full ≡ None → outcome.diag.items ≡ one.now.diag.items) found.now.outcomes.items }
    ensures { (start : KernelState User) → AreFoundFrom start found.now → IfOk result (IsKnownFrom start) }
{
    if !found.whole {
        return Ok(Diagnostics::Untried);
    }
    if !is_awake(found) {
        return Ok(Diagnostics::Asleep);
    }
    let text = Vec::from_slice(alloc, one.diag.as_slice())?;
    Ok(Diagnostics::Same(text))
}

// What is known by what was found.
fn known_by(alloc: Global, found: &Exploration) -> Result<Diagnostics, AllocError>
    ensures { (start : KernelState User) → AreFoundFrom start found.now → IfOk result (IsKnownFrom start) }
{
    let outcomes = found.outcomes.as_slice();
    let Some(one) = first_roomy(outcomes) else {
        return Ok(known_full(found));
    };
    match first_other(outcomes, one.diag.as_slice()) {
        Some(_) => Ok(Diagnostics::Differ),
        None => known_same(alloc, found, one),
    }
}

/// What is known of the diagnostics of a script with this standard input and these files, in whatever order its processes take their
/// turns and on however many harts: every order is tried, unless they lead to more than `states` states (own).
///
/// `Same` is returned only where each finished run in which nothing was full writes these, there is one, and none comes to where all
/// processes sleep; `Differ` only where two finished runs in which nothing was full write others; `Full` only where in each
/// finished run something was full, and none comes to where all sleep; `Asleep` only where one does. `AllocError` where memory is refused.
pub fn diagnostics_of<B: Allocator, C: Allocator>(
    alloc: Global,
    script: &Script<B>,
    stdin: &[u8],
    files: &Files<C>,
    states: usize,
) -> Result<Diagnostics, AllocError>
    ensures { IfOk result (IsKnown script.now.profile (lines_of script.now.lines) stdin.now files.now) }
{
    match explore(alloc, script, stdin, files, states) {
        Ok(found) => known_by(alloc, &found),
        Err(ExploreFault::Memory) => Err(AllocError),
        Err(ExploreFault::TooLong) => Ok(Diagnostics::Untried),
    }
}
