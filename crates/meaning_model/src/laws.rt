//! Laws of the definitions, each the contract of a function that does nothing.
ghost use Rattle.std.specs.Prelude.{◌≡◌, true, false, List};
ghost use Rattle.mem_files.specs.Files.{FileMap};
ghost use Rattle.mem_files.specs.Name.{Bytes, Name};
ghost use Rattle.prog_parts.specs.NameSets.{Names};
ghost use Rattle.sh_tree.specs.Tree.{Tree};
ghost use Rattle.script_load.specs.declared.profile.Profile.{Profile};
ghost use Rattle.script_load.specs.declared.profile.Profile.TheVariants.{Xv6, Append};
ghost use Rattle.script_load.specs.Line.{ScriptLine};
ghost use Rattle.meaning_model.specs.Firm.{IsFirm};
ghost use Rattle.meaning_model.specs.Meaning.{meaning, script_meaning, script_tree};
ghost use Rattle.meaning_model.specs.Met.{met_names};
ghost use Rattle.meaning_model.specs.Over.{has_over};
ghost use Rattle.meaning_model.specs.Programs.{words_value};
ghost use Rattle.meaning_model.specs.Settled.{IsSettled, IsSettledScript};

/// What a simple command gives doesn't depend on the order in which processes run: it leaves nothing
/// loose and has no soft names.
pub fn a_simple_command_is_firm()
    ensures { (words : List Bytes) (input : Bytes) (F : FileMap) → IsFirm (words_value words input F) }
{}

/// In a settled tree no command meets a soft file or a loose input, and no name outside it is soft.
pub fn a_settled_tree_meets_nothing()
    ensures met { (profile : Profile) (tree : Tree) (outside : Names) (input : Bytes) (F : FileMap) → IsSettled profile tree outside input F → (name : Name) → met_names profile tree input F name ≡ false }
    ensures soft { (profile : Profile) (tree : Tree) (outside : Names) (input : Bytes) (F : FileMap) → IsSettled profile tree outside input F → (name : Name) → outside name ≡ true → (meaning profile tree input F).soft name ≡ false }
{}

/// In a settled script no command meets a soft file or a loose input.
pub fn a_settled_script_meets_nothing()
    ensures { (profile : Profile) (lines : List ScriptLine) (input : Bytes) (F : FileMap) → IsSettledScript profile lines input F → (name : Name) → met_names profile (script_tree lines) input F name ≡ false }
{}

/// A script without `>>` has one meaning under both profiles, and its commands meet the same names.
pub fn without_over_one_meaning()
    ensures tree { (tree : Tree) (input : Bytes) (F : FileMap) → has_over tree ≡ false → meaning Xv6 tree input F ≡ meaning Append tree input F }
    ensures script { (lines : List ScriptLine) (input : Bytes) (F : FileMap) → has_over (script_tree lines) ≡ false → script_meaning Xv6 lines input F ≡ script_meaning Append lines input F }
    ensures met { (tree : Tree) (input : Bytes) (F : FileMap) → has_over tree ≡ false → met_names Xv6 tree input F ≡ met_names Append tree input F }
{}
