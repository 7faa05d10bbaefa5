//! Laws: each function's contract is the law, and its body is empty. The programs are any machines.

ghost use Rattle.std.specs.Prelude.{◌≡◌, ◌↔◌, List, Bool, Some, None, true, [], ◌∷◌};
ghost use Rattle.proc_table.specs.Slots.{at, is_runnable};
ghost use Rattle.mem_files.specs.Name.{Bytes, Name};
ghost use Rattle.mem_files.specs.Listing.{AreFiles};
ghost use Rattle.kernel_model.specs.declared.events.Event.{Event};
ghost use Rattle.kernel_model.specs.KernelState.{KernelState};
ghost use Rattle.kernel_model.specs.KernelRun.{KernelRun, start_of};
ghost use Rattle.kernel_model.specs.Boot.{boot_kernel};
ghost use Rattle.kernel_model.specs.Events.{run};
ghost use Rattle.kernel_model.specs.Quiet.{no_refusals};
ghost use Rattle.kernel_model.specs.Alike.{Alike, IsStill};
ghost use Rattle.kernel_model.specs.Key.{SameKey};
ghost use Rattle.kernel_model.specs.Turns.{Turn, callers, quiet_turns, turns_of, by_turns};
ghost use Rattle.law_turns.specs.Matched.{IsMatchedBy};

use user_calls::Machine;

/// A kernel at its start is still, and so is one that is still after any turns.
pub fn a_kernel_is_still_between_turns<M: Machine>()
    ensures start { (init shell : M.State) (input : Bytes) (list : List (Name × Bytes)) → AreFiles list → IsStill (boot_kernel init shell input list) }
    ensures later { (k m : KernelState M.State) (ts : List Turn) → IsStill k → by_turns M.call_of M.next_of (Some k) ts ≡ Some m → IsStill m }
{}

/// Harts don't matter: the calls of any run from a kernel that is still, finished or not, can be made one after the other by
/// turns too, in the same order and with the same notes, and come to a kernel that is alike and has the same outcome. So it is
/// for each run of a kernel from its start.
pub fn harts_do_not_matter<M: Machine>()
    ensures still { (start last : KernelState M.State) (schedule : List Event) (notes : List Bool) → IsStill start
        → run M.call_of M.next_of (Some start) schedule notes ≡ Some last → IsMatchedBy M.call_of M.next_of start (turns_of schedule notes) last }
    ensures booted { (r : KernelRun M.call_of M.next_of) → AreFiles r.files → IsMatchedBy M.call_of M.next_of (start_of r) (turns_of r.schedule r.notes) r.last }
{}

/// A run at which memory was never refused, and one in which nothing was full, come to what turns come to at which memory isn't
/// refused: those of the processes whose calls the run carried out, in the same order.
pub fn an_unmarked_run_needs_no_refusals<M: Machine>()
    ensures quiet { (start last : KernelState M.State) (schedule : List Event) → IsStill start
        → run M.call_of M.next_of (Some start) schedule (no_refusals schedule) ≡ Some last → IsMatchedBy M.call_of M.next_of start (quiet_turns (callers schedule)) last }
    ensures roomy { (start last : KernelState M.State) (schedule : List Event) (notes : List Bool) → IsStill start
        → run M.call_of M.next_of (Some start) schedule notes ≡ Some last → last.full ≡ None → IsMatchedBy M.call_of M.next_of start (quiet_turns (callers schedule)) last }
{}

/// In a kernel that is still exactly the Runnable processes can take a turn, whether memory is refused at it or not.
pub fn who_can_take_a_turn<M: Machine>()
    ensures { (k : KernelState M.State) (t : Turn) → IsStill k
        → (is_runnable (at k.table t.pid) ≡ true) ↔ ((now : KernelState M.State) × (by_turns M.call_of M.next_of (Some k) (t ∷ []) ≡ Some now)) }
{}

/// Kernels that are alike have the same outcomes: what turns the one can take, the other can take, and they are alike again after
/// them. Kernels with the same key are alike.
pub fn alike_kernels_have_the_same_outcomes<M: Machine>()
    ensures forth { (k l m : KernelState M.State) (ts : List Turn) → IsStill k → IsStill l → Alike k l
        → by_turns M.call_of M.next_of (Some k) ts ≡ Some m → IsMatchedBy M.call_of M.next_of l ts m }
    ensures back { (k l : KernelState M.State) → Alike k l → Alike l k }
    ensures keyed { (k l : KernelState M.State) → SameKey k l → Alike k l }
{}
