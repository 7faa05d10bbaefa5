//! Laws of the definitions: each function's contract is the law, and its body is empty.

ghost use Rattle.std.specs.Prelude.{◌≡◌, List};
ghost use Rattle.mem_files.specs.Name.{Bytes, Name};
ghost use Rattle.mem_files.specs.Files.{files};
ghost use Rattle.script_load.specs.Line.{ScriptLine};
ghost use Rattle.script_load.specs.declared.profile.Profile.{Profile};
ghost use Rattle.meaning_model.specs.Meaning.{script_tree};
ghost use Rattle.sh_machine.specs.State.{User};
ghost use Rattle.proc_table.specs.Slots.{IsAlone};
ghost use Rattle.run_model.specs.ScriptRun.{script_kernel};
ghost use Rattle.kernel_model.specs.KernelState.{KernelState};
ghost use Rattle.tree_model.specs.Residual.{done};
ghost use Rattle.tree_model.specs.Runs.{Stage, first_stage};
ghost use Rattle.process_model.specs.Standing.{Stands};

/// At its start a kernel's state stands for the whole script, before the tree machine's first step.
pub fn the_start_stands_for_the_script()
    ensures { (profile : Profile) (lines : List ScriptLine) (input : Bytes) (list : List (Name × Bytes))
        → Stands profile (script_kernel profile lines input list) (first_stage (script_tree lines) input (files list)) }
{}

/// The state of a kernel in which every slot but init's is free stands for nothing left to do.
pub fn a_finished_kernel_stands_for_nothing_left()
    ensures { (profile : Profile) (k : KernelState User) (stage : Stage) → Stands profile k stage → IsAlone k.table → stage.left ≡ done }
{}
