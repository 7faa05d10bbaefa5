//! Laws of what events add: each function's contract is the law, and its body is empty.

ghost use Rattle.std.specs.Prelude.{◌≡◌, ◌++◌, Bool, List, Some};
ghost use Rattle.kernel_model.specs.declared.events.Event.{Event};
ghost use Rattle.kernel_model.specs.KernelState.{KernelState};
ghost use Rattle.kernel_model.specs.Events.{run};
ghost use Rattle.run_trace.specs.Outputs.{diags, outs};

use user_calls::Machine;

/// What the events of a run add to the output, one after the other, is all that the run writes there; and so it is with the
/// diagnostics.
pub fn a_run_writes_what_its_events_add<M: Machine>()
    ensures out { (k m : KernelState M.State) (events : List Event) (notes : List Bool) → run M.call_of M.next_of (Some k) events notes ≡ Some m
        → m.out ≡ k.out ++ outs M.call_of M.next_of (Some k) events notes }
    ensures diag { (k m : KernelState M.State) (events : List Event) (notes : List Bool) → run M.call_of M.next_of (Some k) events notes ≡ Some m
        → m.diag ≡ k.diag ++ diags M.call_of M.next_of (Some k) events notes }
{}
