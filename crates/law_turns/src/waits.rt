//! Laws: each function's contract is the law, and its body is empty. They are of any machines.

ghost use Rattle.std.specs.Prelude.{◌≡◌, ◌≢◌, ℕ, Some};
ghost use Rattle.kernel_model.specs.KernelState.{KernelState};
ghost use Rattle.kernel_model.specs.Begun.{IsBegun};
ghost use Rattle.kernel_model.specs.Turns.{after_turn};
ghost use Rattle.kernel_model.specs.Giving.{FindsSlotNext, ReapsNext};
ghost use Rattle.law_turns.specs.Waits.{InEitherOrderButSlots};

use user_calls::Machine;

/// A wait of a process that has a zombie among its children can be made before or after any other process's turn, if that finds a free
/// slot where it forks: both orders come to the same but for the numbers of slots, what is left of zombies, names of pipes and the count
/// of events. The process goes on to have such a turn until it takes it.
pub fn a_wait_that_reaps_can_be_made_in_either_order<M: Machine>()
    ensures either { (k a l : KernelState M.State) (p q : ℕ) → IsBegun M.call_of M.next_of k → ReapsNext M.call_of M.next_of k p → q ≢ p → FindsSlotNext M.call_of M.next_of k q
        → after_turn M.call_of M.next_of k p ≡ Some a → after_turn M.call_of M.next_of k q ≡ Some l → InEitherOrderButSlots M.call_of M.next_of a l p q }
    ensures stays { (k l : KernelState M.State) (p q : ℕ) → IsBegun M.call_of M.next_of k → ReapsNext M.call_of M.next_of k p → q ≢ p
        → after_turn M.call_of M.next_of k q ≡ Some l → ReapsNext M.call_of M.next_of l p }
{}
