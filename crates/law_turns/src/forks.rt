//! Laws: each function's contract is the law, and its body is empty. They are of any machines.

ghost use Rattle.std.specs.Prelude.{◌≡◌, ◌≢◌, ℕ, Some};
ghost use Rattle.user_calls.specs.declared.calls.Call.TheVariants.{Fork};
ghost use Rattle.proc_table.specs.Slots.{Process, at};
ghost use Rattle.kernel_model.specs.KernelState.{KernelState};
ghost use Rattle.kernel_model.specs.Begun.{IsBegun};
ghost use Rattle.kernel_model.specs.Turns.{after_turn};
ghost use Rattle.kernel_model.specs.Giving.{ForksNext};
ghost use Rattle.law_turns.specs.Waits.{InEitherOrderButSlots};
ghost use Rattle.law_turns.specs.Forks.{HasSlot};

use user_calls::Machine;

/// A fork can be made before or after any other process's turn, if it finds a free slot in both orders, and the other process does too
/// where it forks: both orders come to the same but for the numbers of slots, what is left of zombies, names of pipes and the count of
/// events. The process goes on to have such a turn until it takes it.
pub fn a_fork_can_be_made_in_either_order<M: Machine>()
    ensures either { (k a l : KernelState M.State) (p q : ℕ) → IsBegun M.call_of M.next_of k → ForksNext M.call_of k p → q ≢ p → HasSlot k → HasSlot l
        → ((y : Process M.State) → at k.table q ≡ Some y → M.call_of y.machine y.reply ≡ Fork → HasSlot a)
        → after_turn M.call_of M.next_of k p ≡ Some a → after_turn M.call_of M.next_of k q ≡ Some l → InEitherOrderButSlots M.call_of M.next_of a l p q }
    ensures stays { (k l : KernelState M.State) (p q : ℕ) → IsBegun M.call_of M.next_of k → ForksNext M.call_of k p → q ≢ p
        → after_turn M.call_of M.next_of k q ≡ Some l → ForksNext M.call_of l p }
{}
