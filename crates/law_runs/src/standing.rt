//! Laws: each function's contract is the law, and its body is empty. Each is of both profiles: `>>` writes from the first byte
//! of its file on, as in xv6, or each time at the file's end.

ghost use Rattle.std.specs.Prelude.{◌≡◌, false, ℕ, Bool, Some, None};
ghost use Rattle.mem_files.specs.Name.{Bytes};
ghost use Rattle.script_load.specs.declared.profile.Profile.{Profile};
ghost use Rattle.meaning_model.specs.Meaning.{script_tree};
ghost use Rattle.tree_model.specs.Residual.{keeps_0, keeps_1};
ghost use Rattle.tree_model.specs.Runs.{Reaches, Stage};
ghost use Rattle.tree_model.specs.Tidy.{HasShortCommands};
ghost use Rattle.proc_table.specs.Slots.{IsAlone};
ghost use Rattle.kernel_model.specs.declared.events.Event.{Event};
ghost use Rattle.kernel_model.specs.Events.{happens};
ghost use Rattle.kernel_model.specs.KernelState.{KernelState};
ghost use Rattle.sh_machine.specs.State.{User};
ghost use Rattle.sh_machine.specs.Turn.{call_of, next_of};
ghost use Rattle.run_model.specs.ScriptRun.{HasNoBack, IsRoomy, IsSettledRun, ScriptRun};
ghost use Rattle.process_model.specs.Seen.{Entry, View, reader, writer};
ghost use Rattle.process_model.specs.Phases.{Stage as PipeStage};
ghost use Rattle.process_model.specs.Shape.{Node, Has, pipe_both, stands_for};
ghost use Rattle.process_model.specs.Effect.{NoHolder};
ghost use Rattle.process_model.specs.Standing.{Stands};
ghost use Rattle.law_runs.specs.Leaving.{HasMeaning, begin_of};

/// In every run of a script without `&`, finished or not, in which nothing was full, the kernel stands for a stage that the tree
/// machine reaches from the whole script: its processes, with what they have open and do next, are the places of what is left to
/// do; and the files, the unread input and the output are those of the stage.
pub fn every_run_stands_for_the_tree_machine()
    ensures { (r : ScriptRun) → HasNoBack r → IsRoomy r → (stage : Stage) × Reaches r.profile (begin_of r) stage × Stands r.profile r.last stage }
{}

/// Each further event of such a run is some steps of the machine, or none: there are a stage that the kernel stands for before the
/// event and one after it, and the machine reaches the second from the first.
pub fn each_event_is_steps_of_the_machine_or_none()
    ensures { (r : ScriptRun) (e : Event) (n : Bool) (l : KernelState User) → HasNoBack r → happens call_of next_of r.last e n ≡ Some l → l.full ≡ None
        → (before : Stage) × ((after : Stage) × (Reaches r.profile (begin_of r) before × Stands r.profile r.last before × Reaches r.profile before after × Stands r.profile l after)) }
{}

/// A run of a settled script in which nothing was full and no process but init is left has the meaning's output, the meaning's
/// files but for soft names, and leaves what the meaning leaves of the input, unless that is loose.
pub fn a_finished_run_gives_the_meaning()
    ensures { (r : ScriptRun) → IsSettledRun r → HasShortCommands (script_tree r.lines) → IsRoomy r → IsAlone r.last.table → HasMeaning r }
{}

/// Where no descriptor holds the write end of a pipe that has both its children, its left side can no longer write to it: so the end
/// of file, which a read meets only there, comes only then. And where no descriptor holds its read end, its right side no longer
/// reads from it.
pub fn an_end_that_nobody_holds_was_given_up_by_its_side()
    ensures left { (profile : Profile) (V : View) (a b old : Entry) (parent p i : ℕ) (stage : PipeStage) (lost : Bool) (x y : Node) (bytes : Bytes)
        → Has profile V a b old parent (pipe_both p i stage lost x bytes y) → NoHolder V (writer i) → keeps_1 (stands_for x) ≡ false }
    ensures right { (profile : Profile) (V : View) (a b old : Entry) (parent p i : ℕ) (stage : PipeStage) (lost : Bool) (x y : Node) (bytes : Bytes)
        → Has profile V a b old parent (pipe_both p i stage lost x bytes y) → NoHolder V (reader i) → keeps_0 (stands_for y) ≡ false }
{}
