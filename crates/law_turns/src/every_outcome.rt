//! Laws: each function's contract is the law, and its body is empty. All but the last one are of any machines.

ghost use Rattle.std.specs.Prelude.{◌≡◌, ◌≤◌, ℕ, List, Some, All, Any};
ghost use Rattle.mem_files.specs.Name.{Bytes, Name};
ghost use Rattle.mem_files.specs.Listing.{AreFiles};
ghost use Rattle.script_load.specs.Line.{ScriptLine};
ghost use Rattle.script_load.specs.declared.profile.Profile.{Profile};
ghost use Rattle.proc_table.specs.declared.pid.TheConstants.{PROCS};
ghost use Rattle.sh_machine.specs.Turn.{call_of, next_of};
ghost use Rattle.kernel_model.specs.KernelState.{KernelState};
ghost use Rattle.run_model.specs.ScriptRun.{script_kernel};
ghost use Rattle.kernel_model.specs.Woke.{AlikeAwake, SameKeyAwake};
ghost use Rattle.kernel_model.specs.Anyhow.{SameKeyAnyhow};
ghost use Rattle.kernel_model.specs.Turns.{after_turn, IsReachedFrom};
ghost use Rattle.kernel_model.specs.Outcome.{RunOutcome};
ghost use Rattle.kernel_model.specs.Giving.{GivesWay};
ghost use Rattle.kernel_model.specs.Begun.{IsBegun};
ghost use Rattle.kernel_model.specs.Explored.{FinishesWith, AreOutcomesOf, AreEnough, Explored, IsFinishedOrBusy, IsOutcomeOfRun, AreAllOutcomes, IsNeverStuck};
ghost use Rattle.closed_search.specs.Searched.{IsReducedUnder, IsReached};

use user_calls::Machine;

/// What was explored has the outcome of every finished run from the start, in any order and on any harts, at which memory was
/// never refused or nothing was full, and no other.
pub fn what_was_explored_is_every_outcome<M: Machine>()
    ensures { (start : KernelState M.State) (outcomes : List RunOutcome) → IsBegun M.call_of M.next_of start
        → Explored M.call_of M.next_of start outcomes → AreAllOutcomes M.call_of M.next_of start outcomes }
{}

/// If kernels are enough, and each is finished or some turn leads from it to one with other slots, no such run comes to where all
/// processes sleep.
pub fn no_run_is_stuck_if_each_kernel_can_do_something<M: Machine>()
    ensures { (start : KernelState M.State) (seen : List (KernelState M.State)) → IsBegun M.call_of M.next_of start
        → AreEnough M.call_of M.next_of start seen → All (IsFinishedOrBusy M.call_of M.next_of) seen → IsNeverStuck M.call_of M.next_of start }
{}

/// The outcomes of finished kernels to which turns lead are outcomes of runs at which memory was never refused. So they are too
/// where a search was stopped before its end, and may have missed others.
pub fn outcomes_of_reached_kernels_are_those_of_runs<M: Machine>()
    ensures { (start : KernelState M.State) (seen : List (KernelState M.State)) (outcomes : List RunOutcome)
        → All (IsReachedFrom M.call_of M.next_of start) seen → All (λ outcome. Any (FinishesWith outcome) seen) outcomes
        → All (IsOutcomeOfRun M.call_of M.next_of start) outcomes }
{}

/// Keys distinguish kernels of runs exactly where they differ in more than who sleeps, who runs, and what pipes are called.
pub fn kernels_that_are_alike_have_the_same_key<M: Machine>()
    ensures { (k l : KernelState M.State) → IsBegun M.call_of M.next_of k → IsBegun M.call_of M.next_of l → AlikeAwake k l → SameKeyAwake k l }
{}

/// A search of kernels, the moves of which are the turns of all processes, which makes turns that give way to nobody's at once, and in which kernels
/// with the same key but for who sleeps and for numbers of entries stand for each other: if it went to its end, what it found is enough.
/// So it was explored if the outcomes of the finished kernels are reported and no others.
pub fn what_a_search_found_is_explored<M: Machine>()
    ensures enough { (moves : ℕ) (start : KernelState M.State) (seen : List (KernelState M.State)) → IsBegun M.call_of M.next_of start → PROCS ≤ moves
        → All (IsReached (after_turn M.call_of M.next_of) start) seen → IsReducedUnder (after_turn M.call_of M.next_of) SameKeyAnyhow (GivesWay M.call_of M.next_of) moves start seen
        → AreEnough M.call_of M.next_of start seen }
    ensures explored { (start : KernelState M.State) (seen : List (KernelState M.State)) (outcomes : List RunOutcome)
        → AreEnough M.call_of M.next_of start seen → AreOutcomesOf seen outcomes → Explored M.call_of M.next_of start outcomes }
{}

/// A script's start is one to which turns lead from a boot, whatever the script and under either profile; so all this holds of it.
pub fn a_script_begins_at_a_boot()
    ensures { (profile : Profile) (lines : List ScriptLine) (input : Bytes) (list : List (Name × Bytes)) → AreFiles list → IsBegun call_of next_of (script_kernel profile lines input list) }
{}

/// Kernels of runs that have the same key, but for who sleeps and for numbers of entries, have the same outcomes.
pub fn kernels_with_the_same_key_have_the_same_outcomes<M: Machine>()
    ensures { (k l : KernelState M.State) (outcomes : List RunOutcome) → IsBegun M.call_of M.next_of k → IsBegun M.call_of M.next_of l → SameKeyAnyhow k l
        → AreAllOutcomes M.call_of M.next_of k outcomes → AreAllOutcomes M.call_of M.next_of l outcomes }
{}

/// A turn that gives way to nobody's takes no outcome away: those of the kernel after it are those of the kernel before it.
pub fn a_turn_that_gives_way_keeps_all_outcomes<M: Machine>()
    ensures { (k now : KernelState M.State) (pid : ℕ) (outcomes : List RunOutcome) → IsBegun M.call_of M.next_of k → GivesWay M.call_of M.next_of k pid
        → after_turn M.call_of M.next_of k pid ≡ Some now → AreAllOutcomes M.call_of M.next_of now outcomes → AreAllOutcomes M.call_of M.next_of k outcomes }
{}
