//! Laws: each function's contract is the law, and its body is empty. They are of any machines.

ghost use Rattle.std.specs.Prelude.{◌≡◌, ◌≢◌, ◌⊎◌, ℕ, ◌<◌, ◌≤◌, Some, None};
ghost use Rattle.fd_table.specs.declared.names.Object.TheVariants.{PipeWrite};
ghost use Rattle.kernel_model.specs.KernelState.{KernelState};
ghost use Rattle.kernel_model.specs.Pipes.{pipe_of};
ghost use Rattle.kernel_model.specs.Alike.{IsStill};
ghost use Rattle.kernel_model.specs.Begun.{IsBegun};
ghost use Rattle.kernel_model.specs.Turns.{after_turn};
ghost use Rattle.law_kernel.specs.Ends.{EndsAgree};
ghost use Rattle.kernel_model.specs.Closes.{ClosesNext, FindsFreeNext};
ghost use Rattle.law_turns.specs.Writers.{FindsBytesNext, InEitherOrderAwake, IsDoneAlready, ReadsEmptyNext};

use user_calls::Machine;

/// A turn that closes a descriptor of a pipe's write end, the last one or not, can be taken before or after any other process's turn, if
/// that finds free entries for what it opens and, where the descriptor is the last one, bytes in this pipe if it reads from it: both
/// orders come to the same but for who sleeps, the numbers of entries, names of pipes and the count of events. If the other process,
/// which has put nothing, reads from this pipe while it is empty, its turn isn't needed: the close alone does already what both turns
/// do. Each pipe's open ends are one entry each, as in every run, and no pipe has the name of an event to come.
pub fn the_close_of_a_write_end_can_be_made_in_either_order<M: Machine>()
    ensures either { (k a l : KernelState M.State) (p q pipe : ℕ) → IsStill k → EndsAgree k.entries k.pipes → ((n : ℕ) → k.events < n → pipe_of k.pipes n ≡ None)
        → (e : ClosesNext M.call_of M.next_of (λ o. o ≡ PipeWrite pipe) k p) → q ≢ p → after_turn M.call_of M.next_of k p ≡ Some a → after_turn M.call_of M.next_of k q ≡ Some l
        → FindsFreeNext M.call_of M.next_of k q → (e.file.count ≤ 1 → FindsBytesNext M.call_of M.next_of k pipe q) → InEitherOrderAwake M.call_of M.next_of a l p q }
    ensures empty { (k a l : KernelState M.State) (p q pipe : ℕ) → IsStill k → EndsAgree k.entries k.pipes → ((n : ℕ) → k.events < n → pipe_of k.pipes n ≡ None)
        → ClosesNext M.call_of M.next_of (λ o. o ≡ PipeWrite pipe) k p → q ≢ p → after_turn M.call_of M.next_of k p ≡ Some a → after_turn M.call_of M.next_of k q ≡ Some l
        → ReadsEmptyNext M.call_of M.next_of k pipe q → IsDoneAlready M.call_of M.next_of a l p }
{}

/// So it is in every kernel to which turns lead from a boot: it is still, each open end of a pipe is one entry, and no pipe has the
/// name of an event to come.
pub fn kernels_of_runs_have_right_ends<M: Machine>()
    ensures still { (k : KernelState M.State) → IsBegun M.call_of M.next_of k → IsStill k }
    ensures ends { (k : KernelState M.State) → IsBegun M.call_of M.next_of k → EndsAgree k.entries k.pipes }
    ensures fresh { (k : KernelState M.State) → IsBegun M.call_of M.next_of k → (n : ℕ) → k.events < n → pipe_of k.pipes n ≡ None }
{}

/// In each kernel to which turns lead from a boot, and for each pipe: if a process next reads from the pipe, it finds bytes in it; or
/// it reads from the pipe while that is empty, and has put nothing.
pub fn a_reader_finds_bytes_or_has_put_nothing<M: Machine>()
    ensures { (k : KernelState M.State) → IsBegun M.call_of M.next_of k → (pipe q : ℕ)
        → FindsBytesNext M.call_of M.next_of k pipe q ⊎ ReadsEmptyNext M.call_of M.next_of k pipe q }
{}
