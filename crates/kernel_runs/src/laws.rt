//! Laws of reports: each function's contract is the law, and its body is empty.

ghost use Rattle.std.specs.Prelude.{◌≡◌, None};
ghost use Rattle.sh_machine.specs.State.{User};
ghost use Rattle.kernel_model.specs.KernelState.{KernelState};
ghost use Rattle.kernel_events.specs.Same.{AreSame};
ghost use Rattle.kernel_events.specs.Reports.{IsRunFrom};

use kernel_events::Report;
use std::alloc::Allocator;

/// Two reports of runs from one kernel by one schedule, in which nothing was full, are equal: so a replay of a report's
/// schedule, on the same script, input and files, gives the report again.
pub fn a_schedule_gives_one_report<A: Allocator, B: Allocator>(
    _first: &Report<A>,
    _second: &Report<B>,
)
    ensures { (start : KernelState User) → IsRunFrom start _first.now → IsRunFrom start _second.now → _first.now.schedule ≡ _second.now.schedule
        → _first.now.full ≡ None → _second.now.full ≡ None → AreSame _first.now _second.now }
{}
