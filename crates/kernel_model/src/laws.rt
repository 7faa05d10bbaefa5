//! Laws of the definitions: each function's contract is the law, and its body is empty.
//!
//! They hold of a kernel whose programs are any machines. `run` begins with any state unless a law speaks of the one at
//! the start.

ghost use Rattle.std.specs.Prelude.{◌≡◌, ◌≤◌, ◌<◌, ℕ, List, Bool, Some, None, true, count_by, length};
ghost use Rattle.mem_files.specs.Name.{Bytes, Name};
ghost use Rattle.mem_files.specs.Listing.{AreFiles};
ghost use Rattle.user_calls.specs.declared.calls.Call.{Call};
ghost use Rattle.proc_table.specs.Slots.{at, is_running};
ghost use Rattle.kernel_model.specs.declared.events.Event.{Event};
ghost use Rattle.kernel_model.specs.KernelState.{KernelState};
ghost use Rattle.kernel_model.specs.Boot.{boot_kernel};
ghost use Rattle.kernel_model.specs.Pipes.{pipe_of};
ghost use Rattle.kernel_model.specs.Sound.{IsSound, Keeps};
ghost use Rattle.kernel_model.specs.Along.{IsAlong};
ghost use Rattle.kernel_model.specs.Lasting.{IsLater};
ghost use Rattle.kernel_model.specs.Events.{acted, run};
ghost use Rattle.kernel_model.specs.Quiet.{no_refusals};

use user_calls::Machine;

/// A kernel is sound at its start: each entry counts the descriptors that hold it, and there are 64 slots, each with 16
/// descriptors. No process runs.
pub fn a_kernel_is_sound_at_its_start<M: Machine>()
    ensures sound { (init shell : M.State) (input : Bytes) (list : List (Name × Bytes)) → IsSound (boot_kernel init shell input list).table (boot_kernel init shell input list).entries }
    ensures nobody_runs { (init shell : M.State) (input : Bytes) (list : List (Name × Bytes)) → count_by is_running (boot_kernel init shell input list).table ≡ 0 }
{}

/// Each call of a running process keeps a kernel sound, refused or not; after it that process no longer runs, and as
/// many others run as before.
pub fn each_call_keeps_a_kernel_sound<M: Machine>()
    ensures { (k : KernelState M.State) (pid : ℕ) (after : M.State) (call : Call) (refused : Bool) → AreFiles k.files → IsSound k.table k.entries → is_running (at k.table pid) ≡ true
        → Keeps (count_by is_running k.table) (acted k pid after call refused).table (acted k pid after call refused).entries }
{}

/// No call takes these back: how many events there were, the first refusal's mark, and that no pipe has the name of an
/// event to come.
pub fn what_no_call_takes_back<M: Machine>()
    ensures { (k : KernelState M.State) (pid : ℕ) (after : M.State) (call : Call) (refused : Bool) → IsAlong k (acted k pid after call refused) }
{}

/// Over a run its events are counted, and the first refusal's mark is kept.
pub fn a_run_counts_its_events<M: Machine>()
    ensures { (k m : KernelState M.State) (events : List Event) (notes : List Bool) → run M.call_of M.next_of (Some k) events notes ≡ Some m → IsLater k (length events) m }
{}

/// No pipe is ever made under a name that another one has: in a run from the start, no pipe has the number of an event to
/// come as its name.
pub fn a_pipe_gets_a_new_name<M: Machine>()
    ensures { (init shell : M.State) (input : Bytes) (list : List (Name × Bytes)) (m : KernelState M.State) (events : List Event) (notes : List Bool) (id : ℕ)
        → run M.call_of M.next_of (Some (boot_kernel init shell input list)) events notes ≡ Some m → length events < id → pipe_of m.pipes id ≡ None }
{}

/// The schedule of a run that marked nothing determines it, whatever its notes: it is the run in which memory was never
/// refused, and there is one such run.
pub fn a_schedule_determines_an_unmarked_run<M: Machine>()
    ensures quiet { (k m : KernelState M.State) (events : List Event) (notes : List Bool) → run M.call_of M.next_of (Some k) events notes ≡ Some m → m.full ≡ None
        → run M.call_of M.next_of (Some k) events (no_refusals events) ≡ Some m }
    ensures one { (k m n : KernelState M.State) (events : List Event) (notes others : List Bool) → run M.call_of M.next_of (Some k) events notes ≡ Some m
        → run M.call_of M.next_of (Some k) events others ≡ Some n → m.full ≡ None → n.full ≡ None → m ≡ n }
{}
