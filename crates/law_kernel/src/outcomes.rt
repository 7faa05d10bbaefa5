//! Laws of the calls: each function's contract is the law, and its body is empty.
//!
//! They hold of a kernel whose programs are any machines, in any state.

ghost use Rattle.std.specs.Prelude.{◌≡◌, ℕ, Bool, true};
ghost use Rattle.user_calls.specs.declared.calls.Call.{Call};
ghost use Rattle.user_calls.specs.declared.calls.Reply.TheVariants.{Refused};
ghost use Rattle.proc_table.specs.Slots.{at, is_running};
ghost use Rattle.kernel_model.specs.KernelState.{KernelState};
ghost use Rattle.kernel_model.specs.Replies.{answered};
ghost use Rattle.kernel_model.specs.Events.{acted};
ghost use Rattle.law_kernel.specs.Outcome.{Outcome};
ghost use Rattle.law_kernel.specs.Refused.{IsRefused, with_mark};

use user_calls::Machine;

/// Every call ends in one of the ways that are listed.
pub fn every_call_ends<M: Machine>()
    ensures { (k : KernelState M.State) (pid : ℕ) (after : M.State) (call : Call) (memory : Bool) → Outcome k pid after call (acted k pid after call memory) }
{}

/// A refused call changes nothing but the mark: the process goes on with its reply, and all else is as before the call.
/// So a write that is refused leaves in its pipe what was put before.
pub fn a_refused_call_changes_nothing<M: Machine>()
    ensures { (k : KernelState M.State) (pid : ℕ) (after : M.State) (call : Call) (memory : Bool) → IsRefused (at (acted k pid after call memory).table pid)
        → acted k pid after call memory ≡ with_mark (answered k pid after Refused) (acted k pid after call memory).full }
{}

/// Only a refused call marks the kernel: any other call of a running process leaves the mark as it was.
pub fn only_a_refused_call_marks<M: Machine>()
    ensures { (k : KernelState M.State) (pid : ℕ) (after : M.State) (call : Call) (memory : Bool) → is_running (at k.table pid) ≡ true
        → (IsRefused (at (acted k pid after call memory).table pid) → ⊥) → (acted k pid after call memory).full ≡ k.full }
{}
