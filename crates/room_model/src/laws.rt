//! A law: the function's contract is the law, and its body is empty.

ghost use Rattle.std.specs.Prelude.{◌≡◌, List, false};
ghost use Rattle.script_load.specs.Line.{ScriptLine};
ghost use Rattle.meaning_model.specs.Meaning.{script_tree};
ghost use Rattle.conflict_check.specs.Clear.{has_back};
ghost use Rattle.room_model.specs.Processes.{script_processes};
ghost use Rattle.room_model.specs.BehindProcesses.{processes_at_once};

/// Of a script without `&` the bound on processes is that of `room_model`.
pub fn no_back_needs_no_more()
    ensures { (lines : List ScriptLine) → has_back (script_tree lines) ≡ false → processes_at_once lines ≡ script_processes lines }
{}
