//! Laws: each function's contract is the law, and its body is empty. Each is of both profiles.

ghost use Rattle.std.specs.Prelude.{◌≡◌, ◌<◌, ◌≤◌, ◌+◌, ◌⊎◌, ℕ, Bool, List, Some, None, length};
ghost use Rattle.mem_files.specs.Files.{files};
ghost use Rattle.mem_files.specs.Listing.{AreFiles};
ghost use Rattle.mem_files.specs.Name.{Bytes, Name};
ghost use Rattle.script_load.specs.Line.{ScriptLine};
ghost use Rattle.script_load.specs.declared.profile.Profile.{Profile};
ghost use Rattle.meaning_model.specs.Meaning.{script_tree};
ghost use Rattle.tree_model.specs.Tidy.{HasShortCommands, IsClearScript};
ghost use Rattle.sh_machine.specs.State.{User};
ghost use Rattle.sh_machine.specs.Turn.{call_of, next_of};
ghost use Rattle.kernel_model.specs.declared.events.Event.{Event};
ghost use Rattle.kernel_model.specs.Events.{run, IsFinished};
ghost use Rattle.kernel_model.specs.KernelState.{KernelState};
ghost use Rattle.run_model.specs.ScriptRun.{IsRoomy, IsSettledRun, IsSpentFrom, ScriptRun, script_kernel};
ghost use Rattle.step_bounds.specs.Most.{most_events};
ghost use Rattle.law_runs.specs.Leaving.{HasMeaning};
ghost use Rattle.law_runs.specs.GoingOn.{CanGoOn, StaysFinished, most_of};

/// A run of a clear script in which nothing was full, whatever its schedule, is finished once it has more events than
/// `most_events`, a number that is computed from the script, the length of the input and the sizes of the files. And as long as
/// it isn't finished some event can happen.
pub fn every_run_is_finished_after_so_many_events()
    ensures finished { (r : ScriptRun) → IsClearScript r.lines → IsRoomy r → most_of r < length r.schedule → IsFinished r.last }
    ensures goes_on { (r : ScriptRun) → IsClearScript r.lines → IsRoomy r → IsFinished r.last ⊎ ((length r.schedule ≤ most_of r) × CanGoOn r.last) }
{}

/// So every run of a settled script that goes on, and in which nothing was full, is finished after at most one event more than
/// `most_events`, and has then left what the script means: its output, its files but for soft names, and what it leaves of the
/// input unless that is loose.
pub fn every_run_ends_with_the_meaning()
    ensures finished { (r : ScriptRun) → IsSettledRun r → HasShortCommands (script_tree r.lines) → IsRoomy r → most_of r < length r.schedule → IsFinished r.last × HasMeaning r }
    ensures goes_on { (r : ScriptRun) → IsSettledRun r → HasShortCommands (script_tree r.lines) → IsRoomy r
        → (IsFinished r.last × HasMeaning r) ⊎ ((length r.schedule ≤ most_of r) × CanGoOn r.last) }
{}

/// A finished run stays so, whatever events follow, which are init's alone: they change nothing that it left. Of any script, and
/// whatever was full.
pub fn a_finished_run_stays_as_it_is()
    ensures { (r : ScriptRun) (more : List Event) (later : List Bool) (m : KernelState User) → IsFinished r.last → run call_of next_of (Some r.last) more later ≡ Some m → StaysFinished r.last m }
{}

/// Where a run of a clear script is given up, as by `run_one` with its fault `Spent`, and nothing was full, it had fewer turns
/// than `most_events` and two.
pub fn so_many_turns_are_enough()
    ensures { (profile : Profile) (lines : List ScriptLine) (input : Bytes) (list : List (Name × Bytes)) (turns : ℕ)
        → AreFiles list → IsClearScript lines
        → (s : IsSpentFrom (script_kernel profile lines input list) turns) → s.last.full ≡ None → turns < most_events lines input (files list) + 2 }
{}
