//! Laws: each function's contract is the law, and its body is empty. Each is of both profiles.

ghost use Rattle.std.specs.Prelude.{◌≡◌, ◌<◌, ◌+◌, ℕ, false, List, None, length};
ghost use Rattle.mem_files.specs.Listing.{AreFiles};
ghost use Rattle.mem_files.specs.Name.{Bytes, Name};
ghost use Rattle.conflict_check.specs.Clear.{has_back};
ghost use Rattle.script_load.specs.Line.{ScriptLine};
ghost use Rattle.script_load.specs.declared.profile.Profile.{Profile};
ghost use Rattle.meaning_model.specs.Meaning.{script_tree};
ghost use Rattle.run_model.specs.ScriptRun.{HasNoBack, IsRoomy, IsSpentFrom, ScriptRun, script_kernel};
ghost use Rattle.law_runs.specs.Awake.{IsAwake};

/// In every run of a script without `&` in which nothing was full, some process is Runnable or Running: never do all processes
/// sleep. So it is in a finished run too, since init waits again and again.
///
/// That a hart comes and runs it isn't said.
pub fn no_run_is_stuck()
    ensures { (r : ScriptRun) → HasNoBack r → IsRoomy r → IsAwake r.last.table }
{}

/// Where a run of such a script is given up, as `run_one` does with its fault `Spent`, and nothing was full, its turns were
/// spent: fewer than two of them are left.
pub fn a_run_spends_its_turns()
    ensures { (profile : Profile) (lines : List ScriptLine) (input : Bytes) (list : List (Name × Bytes)) (turns : ℕ)
        → AreFiles list → has_back (script_tree lines) ≡ false
        → (s : IsSpentFrom (script_kernel profile lines input list) turns) → s.last.full ≡ None → turns < length s.events + 2 }
{}
