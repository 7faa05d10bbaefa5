//! A law: the function's contract is the law, and its body is empty.

ghost use Rattle.std.specs.Prelude.{ℕ, List};
ghost use Rattle.mem_files.specs.Name.{Bytes};
ghost use Rattle.mem_files.specs.Files.{FileMap};
ghost use Rattle.script_load.specs.Line.{ScriptLine};
ghost use Rattle.room_model.specs.Sizes.{KeepsWithin};
ghost use Rattle.room_bounds.specs.Growth.{IsGrowth, grown_where};

/// By such a number the files of a script don't outgrow.
pub fn a_growth_keeps_within()
    ensures { (lines : List ScriptLine) (input : Bytes) (F : FileMap) (more : ℕ) → IsGrowth lines input F more → KeepsWithin lines input F (grown_where lines F more) }
{}
