//! Laws: each function's contract is the law, and its body is empty. They are of any machines.

ghost use Rattle.std.specs.Prelude.{◌≡◌, ◌≢◌, ◌⊎◌, ℕ, Some};
ghost use Rattle.kernel_model.specs.KernelState.{KernelState};
ghost use Rattle.kernel_model.specs.Begun.{IsBegun};
ghost use Rattle.kernel_model.specs.Anyhow.{DoesAnyhow};
ghost use Rattle.kernel_model.specs.Reduced.{Joins};
ghost use Rattle.kernel_model.specs.Turns.{after_turn};
ghost use Rattle.kernel_model.specs.Giving.{ExitsNext, ReapsNext};
ghost use Rattle.kernel_model.specs.Closes.{FindsFreeNext};
ghost use Rattle.law_turns.specs.Exits.{ExitsBareNext, ExitsInRoom, InEitherOrderAnyhow, InEitherOrderReaping, IsDoneAnyhow};

use user_calls::Machine;

/// An exit of a process that holds no descriptor can be made before or after any other process's turn. Both orders come to the same
/// but for who sleeps, numbers of entries, names of pipes and the count of events; or the exit alone comes to what both turns come to;
/// or the other process waits and frees a zombie in both orders, maybe not the same one, and then slots and what is left of zombies may
/// differ too. The process goes on to have such a turn until it takes it.
pub fn an_exit_without_descriptors_can_be_made_in_either_order<M: Machine>()
    ensures either { (k a l : KernelState M.State) (p q : ℕ) → IsBegun M.call_of M.next_of k → ExitsBareNext M.call_of M.next_of k p → p ≢ 0 → q ≢ p
        → after_turn M.call_of M.next_of k p ≡ Some a → after_turn M.call_of M.next_of k q ≡ Some l
        → InEitherOrderAnyhow M.call_of M.next_of a l p q ⊎ (IsDoneAnyhow M.call_of M.next_of a l p ⊎ InEitherOrderReaping M.call_of M.next_of k a l p q) }
    ensures stays { (k l : KernelState M.State) (p q : ℕ) → IsBegun M.call_of M.next_of k → ExitsBareNext M.call_of M.next_of k p → q ≢ p
        → after_turn M.call_of M.next_of k q ≡ Some l → ExitsBareNext M.call_of M.next_of l p }
{}

/// So it is with an exit of a process that can close at once whatever descriptors it holds, if the other turn finds free entries for
/// what it opens.
pub fn an_exit_can_be_made_in_either_order<M: Machine>()
    ensures either { (k a l : KernelState M.State) (p q : ℕ) → IsBegun M.call_of M.next_of k → ExitsNext M.call_of M.next_of k p → p ≢ 0 → q ≢ p → FindsFreeNext M.call_of M.next_of k q
        → after_turn M.call_of M.next_of k p ≡ Some a → after_turn M.call_of M.next_of k q ≡ Some l
        → InEitherOrderAnyhow M.call_of M.next_of a l p q ⊎ (IsDoneAnyhow M.call_of M.next_of a l p ⊎ InEitherOrderReaping M.call_of M.next_of k a l p q) }
    ensures stays { (k l : KernelState M.State) (p q : ℕ) → IsBegun M.call_of M.next_of k → ExitsNext M.call_of M.next_of k p → q ≢ p
        → after_turn M.call_of M.next_of k q ≡ Some l → ExitsNext M.call_of M.next_of l p }
{}

/// So such an exit gives way to nobody's turn but to a wait that frees a zombie, in a kernel of a run where whatever is opened from
/// then on finds free entries: it can be taken before any other turn but such a wait or after it, and stays such an exit over that turn.
pub fn an_exit_gives_way_to_nobody_who_frees_no_zombie<M: Machine>()
    ensures { (k a l : KernelState M.State) (p q : ℕ) → ExitsInRoom M.call_of M.next_of k p → q ≢ p → (ReapsNext M.call_of M.next_of k q → ⊥)
        → after_turn M.call_of M.next_of k p ≡ Some a → after_turn M.call_of M.next_of k q ≡ Some l
        → Joins (after_turn M.call_of M.next_of) (DoesAnyhow M.call_of M.next_of) (ExitsInRoom M.call_of M.next_of) a l p }
{}
