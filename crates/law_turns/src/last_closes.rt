//! Laws: each function's contract is the law, and its body is empty. They are of any machines.

ghost use Rattle.std.specs.Prelude.{◌≡◌, ◌≢◌, ℕ, Some};
ghost use Rattle.kernel_model.specs.KernelState.{KernelState};
ghost use Rattle.kernel_model.specs.Alike.{IsStill};
ghost use Rattle.kernel_model.specs.Turns.{after_turn};
ghost use Rattle.kernel_model.specs.Reduced.{IsFollowing};
ghost use Rattle.kernel_model.specs.Anyhow.{DoesAnyhow};
ghost use Rattle.kernel_model.specs.Closes.{ClosesNext, FindsFreeNext, IsPlain};
ghost use Rattle.fd_table.specs.declared.names.Object.{Object};
ghost use Rattle.law_turns.specs.Either.{InEitherOrder};

use user_calls::Machine;

/// A turn that closes a file, the input, the output or the diagnostics, whether it is the last holder of its entry that does so or
/// not, can be taken before or after any other process's turn, if that finds free entries for what it opens: both orders come to the
/// same but for the numbers of entries, names of pipes and the count of events. Whoever next closes a descriptor, of whatever object,
/// next closes one of that object until that turn is taken.
pub fn a_close_of_no_pipe_can_be_made_in_either_order<M: Machine>()
    ensures either { (k a l : KernelState M.State) (p q : ℕ) → IsStill k → ClosesNext M.call_of M.next_of IsPlain k p → q ≢ p → FindsFreeNext M.call_of M.next_of k q
        → after_turn M.call_of M.next_of k p ≡ Some a → after_turn M.call_of M.next_of k q ≡ Some l → InEitherOrder M.call_of M.next_of a l p q }
    ensures stays { (object : Object) (k l : KernelState M.State) (p q : ℕ) → IsStill k → ClosesNext M.call_of M.next_of (λ o. o ≡ object) k p → q ≢ p
        → after_turn M.call_of M.next_of k q ≡ Some l → ClosesNext M.call_of M.next_of (λ o. o ≡ object) l p }
{}

/// Whatever turn a kernel can take, one that is the same but for who sleeps and for numbers of entries can take too, and does after it
/// what the other does; or it does so already, since the turn came to nothing but that its process fell asleep.
pub fn neither_sleepers_nor_numbers_are_seen<M: Machine>()
    ensures { IsFollowing (after_turn M.call_of M.next_of) (DoesAnyhow M.call_of M.next_of) }
{}
