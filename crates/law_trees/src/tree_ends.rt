//! Laws on the ends of runs: each function's contract is the law, and its body is empty.
ghost use Rattle.std.specs.Prelude.{◌≡◌, ◌⊎◌, ◌+◌, ◌≤◌, List, length};
ghost use Rattle.mem_files.specs.Files.{FileMap};
ghost use Rattle.mem_files.specs.Name.{Bytes, Name};
ghost use Rattle.tree_model.specs.FilesAhead.{sizes};
ghost use Rattle.script_load.specs.declared.profile.Profile.{Profile};
ghost use Rattle.script_load.specs.Line.{ScriptLine};
ghost use Rattle.meaning_model.specs.Meaning.{script_meaning, script_tree};
ghost use Rattle.meaning_model.specs.Settled.{IsSettledScript};
ghost use Rattle.tree_model.specs.Bound.{most_bytes, most_steps};
ghost use Rattle.tree_model.specs.Ends.{steps_of};
ghost use Rattle.tree_model.specs.Residual.{done};
ghost use Rattle.tree_model.specs.Runs.{Agrees, Goes, Reaches, Stage, first_stage};
ghost use Rattle.tree_model.specs.Tidy.{HasShortCommands, IsClearScript};

/// Every run of a clear script without `&` ends: no list of steps, whatever they are and in whatever order, is longer than a
/// number that is computed from the script, the length of the input and the sizes of the files; nor does it write more bytes
/// to its output, or make a file larger by more, than a second number. Early readers and refused writes are among the steps.
pub fn every_run_ends()
    ensures steps { (profile : Profile) (lines : List ScriptLine) (input : Bytes) (F : FileMap) (last : Stage) → IsClearScript lines
        → (run : Reaches profile (first_stage (script_tree lines) input F) last) → steps_of run ≤ most_steps lines input F }
    ensures output { (profile : Profile) (lines : List ScriptLine) (input : Bytes) (F : FileMap) (last : Stage) → IsClearScript lines
        → Reaches profile (first_stage (script_tree lines) input F) last → length last.out ≤ most_bytes lines input F }
    ensures files { (profile : Profile) (lines : List ScriptLine) (input : Bytes) (F : FileMap) (last : Stage) (name : Name) → IsClearScript lines
        → Reaches profile (first_stage (script_tree lines) input F) last → sizes last.files name ≤ sizes F name + most_bytes lines input F }
{}

/// From each stage that a run of a clear script without `&` reaches, some steps lead on until nothing is left to do.
pub fn every_run_can_finish()
    ensures { (profile : Profile) (lines : List ScriptLine) (input : Bytes) (F : FileMap) (last : Stage) → IsClearScript lines → Reaches profile (first_stage (script_tree lines) input F) last
        → (end : Stage) × Reaches profile last end × (end.left ≡ done) }
{}

/// Every run of a settled script, whatever steps it makes and in whatever order, is done after at most so many steps, and gives
/// the recursive meaning then: it has no more of them, and either it is done and agrees with the meaning, or it goes on.
pub fn every_run_gives_the_meaning()
    ensures { (profile : Profile) (lines : List ScriptLine) (input : Bytes) (F : FileMap) (last : Stage) → IsSettledScript profile lines input F → HasShortCommands (script_tree lines)
        → (run : Reaches profile (first_stage (script_tree lines) input F) last)
        → (steps_of run ≤ most_steps lines input F) × (((last.left ≡ done) × Agrees last (script_meaning profile lines input F)) ⊎ ((next : Stage) × Goes profile last next)) }
{}
