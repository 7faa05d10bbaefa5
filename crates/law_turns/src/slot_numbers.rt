//! Laws: each function's contract is the law, and its body is empty. They are of any machines.

ghost use Rattle.std.specs.Prelude.{◌≡◌, ℕ, List, Some, length};
ghost use Rattle.kernel_model.specs.KernelState.{KernelState};
ghost use Rattle.kernel_model.specs.Begun.{IsBegun};
ghost use Rattle.kernel_model.specs.Outcome.{SameOutcome};
ghost use Rattle.kernel_model.specs.Turns.{after_turn, after_turns};
ghost use Rattle.kernel_model.specs.Slots.{SameButSlots};
ghost use Rattle.law_turns.specs.TakenToo.{IsTurnTakenToo, AreTurnsTakenToo};

use user_calls::Machine;

/// To differ only in the numbers of slots, and in what is left of zombies, is an equivalence of kernels.
pub fn to_differ_in_slots_is_an_equivalence<M: Machine>()
    ensures itself { (k : KernelState M.State) → SameButSlots k k }
    ensures back { (k l : KernelState M.State) → SameButSlots k l → SameButSlots l k }
    ensures on { (k l m : KernelState M.State) → SameButSlots k l → SameButSlots l m → SameButSlots k m }
{}

/// Such kernels have the same outcome, have left the same input unread, and are finished or both are not.
pub fn slots_are_not_seen_in_an_outcome<M: Machine>()
    ensures { (k l : KernelState M.State) → SameButSlots k l → SameOutcome k l }
{}

/// Whatever turns a kernel of a run can take, one that differs only in the numbers of slots can take too, and they come to such kernels
/// again: a fork may take another free slot in each, and a wait free another zombie's.
pub fn no_turn_sees_slots<M: Machine>()
    ensures one { (k l now : KernelState M.State) (pid : ℕ) (a : SameButSlots k l) → IsBegun M.call_of M.next_of k → IsBegun M.call_of M.next_of l
        → after_turn M.call_of M.next_of k pid ≡ Some now → IsTurnTakenToo M.call_of M.next_of l (a.numbering.to pid) now }
    ensures all { (k l m : KernelState M.State) (pids : List ℕ) → SameButSlots k l → IsBegun M.call_of M.next_of k → IsBegun M.call_of M.next_of l
        → after_turns M.call_of M.next_of k pids ≡ Some m → AreTurnsTakenToo M.call_of M.next_of l (length pids) m }
{}
