//! Laws: each function's contract is the law, and its body is empty. They are of any machines.

ghost use Rattle.std.specs.Prelude.{◌≡◌, ℕ, Bool, List, Some};
ghost use Rattle.user_calls.specs.declared.calls.Call.{Call};
ghost use Rattle.proc_table.specs.Slots.{at};
ghost use Rattle.kernel_model.specs.KernelState.{KernelState};
ghost use Rattle.kernel_model.specs.Events.{acted};
ghost use Rattle.kernel_model.specs.Sound.{IsMid};
ghost use Rattle.kernel_model.specs.Alike.{IsStill};
ghost use Rattle.kernel_model.specs.Outcome.{SameOutcome};
ghost use Rattle.kernel_model.specs.Turns.{Turn, by_turns};
ghost use Rattle.kernel_model.specs.Numbers.{SameButNumbers, renumbered_slot};
ghost use Rattle.law_turns.specs.Taken.{IsTakenToo};

use user_calls::Machine;

/// To differ only in the numbers of open-file entries is an equivalence of kernels.
pub fn to_differ_in_numbers_is_an_equivalence<M: Machine>()
    ensures itself { (k : KernelState M.State) → SameButNumbers k k }
    ensures back { (k l : KernelState M.State) → SameButNumbers k l → SameButNumbers l k }
    ensures on { (k l m : KernelState M.State) → SameButNumbers k l → SameButNumbers l m → SameButNumbers k m }
{}

/// Kernels that differ only in these numbers have the same outcome, the same processes but for the numbers that their descriptors
/// hold, and are still or aren't.
pub fn numbers_are_not_seen<M: Machine>()
    ensures outcome { (k l : KernelState M.State) → SameButNumbers k l → SameOutcome k l }
    ensures processes { (k l : KernelState M.State) (pid : ℕ) (a : SameButNumbers k l) → at l.table pid ≡ renumbered_slot a.numbering.to (at k.table pid) }
    ensures still { (k l : KernelState M.State) → SameButNumbers k l → IsStill k → IsStill l }
{}

/// Any call of a process that runs, whether memory is refused at it or not, leaves such kernels so: it has the same reply in both,
/// and both are marked or neither. An open may take another entry in each.
pub fn no_call_sees_numbers<M: Machine>()
    ensures { (k l : KernelState M.State) (running pid : ℕ) (after : M.State) (call : Call) (refused : Bool) → IsMid running k.table k.entries pid
        → SameButNumbers k l → SameButNumbers (acted k pid after call refused) (acted l pid after call refused) }
{}

/// Whatever turns such a kernel can take the other one can take too, and they lead to such kernels again, with the same outcome.
pub fn no_turns_see_numbers<M: Machine>()
    ensures { (k l m : KernelState M.State) (ts : List Turn) → IsStill k → SameButNumbers k l
        → by_turns M.call_of M.next_of (Some k) ts ≡ Some m → IsTakenToo M.call_of M.next_of l ts m }
{}
