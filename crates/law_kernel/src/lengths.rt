//! Laws on the lengths of runs: each function's contract is the law, and its body is empty.

ghost use Rattle.std.specs.Prelude.{◌≡◌, ◌≤◌, ◌+◌, ◌*◌, List, Bool, Some, length, count_by};
ghost use Rattle.mem_files.specs.Name.{Bytes, Name};
ghost use Rattle.mem_files.specs.Listing.{AreFiles};
ghost use Rattle.proc_table.specs.Slots.{is_running};
ghost use Rattle.kernel_model.specs.declared.events.Event.{Event};
ghost use Rattle.kernel_model.specs.KernelRun.{KernelRun};
ghost use Rattle.kernel_model.specs.Boot.{boot_kernel};
ghost use Rattle.kernel_model.specs.Events.{is_dispatch};
ghost use Rattle.law_kernel.specs.Kinds.{count_events, count_in, does_more, only_sleeps, stays_awake};

use user_calls::Machine;

/// In every run from the start, whatever the programs are and finished or not, the calls that do more than put their process
/// to sleep bound all other events: for a call that sleeps there is one process that sleeps, or was woken by a call that did
/// more, which wakes 64 at most; and each dispatch is followed by a call, or its process runs.
pub fn a_run_is_as_long_as_what_its_calls_do<M: Machine>()
    ensures kinds { (r : KernelRun M.call_of M.next_of) → AreFiles r.files → length r.schedule ≡ count_by is_dispatch r.schedule + (count_in M.call_of M.next_of only_sleeps r + count_in M.call_of M.next_of does_more r) }
    ensures dispatches { (r : KernelRun M.call_of M.next_of) → AreFiles r.files → length r.schedule + count_by is_running r.last.table ≡ 2 * count_by is_dispatch r.schedule }
    ensures sleeps { (r : KernelRun M.call_of M.next_of) → AreFiles r.files → count_in M.call_of M.next_of only_sleeps r ≤ 64 + 64 * count_in M.call_of M.next_of does_more r }
    ensures all { (r : KernelRun M.call_of M.next_of) → AreFiles r.files → length r.schedule ≤ 192 + 130 * count_in M.call_of M.next_of does_more r }
{}

/// A write that puts a part of its bytes and then sleeps leaves its pipe full. So in every run from the start there are at most
/// as many of them as calls after which the process doesn't sleep, since only such a call makes a pipe or takes bytes from one;
/// and these calls alone bound all events.
pub fn a_run_is_as_long_as_its_calls_that_dont_sleep<M: Machine>()
    ensures more { (init shell : M.State) (input : Bytes) (list : List (Name × Bytes)) (events : List Event) (notes : List Bool)
        → count_events M.call_of M.next_of does_more (Some (boot_kernel init shell input list)) events notes ≤ 2 * count_events M.call_of M.next_of stays_awake (Some (boot_kernel init shell input list)) events notes }
    ensures all { (r : KernelRun M.call_of M.next_of) → AreFiles r.files → length r.schedule ≤ 192 + 260 * count_in M.call_of M.next_of stays_awake r }
{}
