//! Laws: each function's contract is the law, and its body is empty. They are of any machines.

ghost use Rattle.std.specs.Prelude.{◌≡◌, ◌≢◌, ℕ, ◌<◌, Some, None};
ghost use Rattle.fd_table.specs.declared.names.Object.TheVariants.{PipeRead};
ghost use Rattle.kernel_model.specs.KernelState.{KernelState};
ghost use Rattle.kernel_model.specs.Pipes.{pipe_of};
ghost use Rattle.kernel_model.specs.Alike.{IsStill};
ghost use Rattle.kernel_model.specs.Anyhow.{DoesAnyhow};
ghost use Rattle.kernel_model.specs.Closes.{ClosesNext, FindsFreeNext, ClosesOrPrivateBegun, NobodyElseWrites};
ghost use Rattle.kernel_model.specs.Reduced.{IsSafe};
ghost use Rattle.kernel_model.specs.Turns.{after_turn};
ghost use Rattle.law_kernel.specs.Ends.{EndsAgree};
ghost use Rattle.law_turns.specs.Writers.{InEitherOrderAwake};

use user_calls::Machine;

/// A turn that closes a descriptor of a pipe's read end, the last one or not, can be taken before or after any other process's turn, if
/// no process but its own has a descriptor of that pipe's write end, and if the other turn finds free entries for what it opens: both
/// orders come to the same but for who sleeps, the numbers of entries, names of pipes and the count of events. That nobody else has one
/// stays so over the other turn. Each pipe's open ends are one entry each, as in every run, and no pipe has the name of an event to
/// come.
pub fn the_close_of_a_read_end_to_which_nobody_else_writes_can_be_made_in_either_order<M: Machine>()
    ensures either { (k a l : KernelState M.State) (p q pipe : ℕ) → IsStill k → EndsAgree k.entries k.pipes → ((n : ℕ) → k.events < n → pipe_of k.pipes n ≡ None)
        → ClosesNext M.call_of M.next_of (λ o. o ≡ PipeRead pipe) k p → NobodyElseWrites k pipe p → q ≢ p → after_turn M.call_of M.next_of k p ≡ Some a
        → after_turn M.call_of M.next_of k q ≡ Some l → FindsFreeNext M.call_of M.next_of k q → InEitherOrderAwake M.call_of M.next_of a l p q }
    ensures stays { (k l : KernelState M.State) (p q pipe : ℕ) → IsStill k → EndsAgree k.entries k.pipes → ((n : ℕ) → k.events < n → pipe_of k.pipes n ≡ None)
        → ClosesNext M.call_of M.next_of (λ o. o ≡ PipeRead pipe) k p → NobodyElseWrites k pipe p → q ≢ p → after_turn M.call_of M.next_of k q ≡ Some l → NobodyElseWrites l pipe p }
{}

/// So such a close gives way to nobody's turn in a kernel of a run where whatever is opened from then on finds free entries; nor does
/// the close of a pipe's write end, of a file, of the input, the output or the diagnostics, nor a turn that is private anyhow: it can
/// be taken before any other process's turn or after it, and stays such a turn until it is taken. Only the close of the read end of a
/// pipe to which somebody else can write is left out.
pub fn such_closes_give_way_to_nobody<M: Machine>()
    ensures { IsSafe (after_turn M.call_of M.next_of) (DoesAnyhow M.call_of M.next_of) (ClosesOrPrivateBegun M.call_of M.next_of) }
{}
