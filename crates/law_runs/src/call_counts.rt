//! Laws: each function's contract is the law, and its body is empty. Each is of both profiles.
//!
//! The calls that are counted are the traps of processes other than init after which the process doesn't sleep. Dispatches
//! and the calls that put their process to sleep aren't.

ghost use Rattle.std.specs.Prelude.{◌≡◌, ◌≤◌, ◌*◌, Bool, Some, None};
ghost use Rattle.mem_files.specs.Files.{files};
ghost use Rattle.tree_model.specs.Runs.{Reaches, Stage};
ghost use Rattle.tree_model.specs.Tidy.{IsClearScript};
ghost use Rattle.tree_model.specs.Bound.{most_steps};
ghost use Rattle.tree_model.specs.Ends.{steps_of};
ghost use Rattle.sh_machine.specs.State.{User};
ghost use Rattle.sh_machine.specs.Turn.{call_of, next_of};
ghost use Rattle.kernel_model.specs.declared.events.Event.{Event};
ghost use Rattle.kernel_model.specs.Events.{happens};
ghost use Rattle.kernel_model.specs.KernelState.{KernelState};
ghost use Rattle.run_model.specs.ScriptRun.{HasNoBack, IsRoomy, ScriptRun};
ghost use Rattle.process_model.specs.Standing.{Stands};
ghost use Rattle.law_runs.specs.Leaving.{begin_of};
ghost use Rattle.law_runs.specs.Paid.{IsPaidFor, calls_in_run};

/// Each further event of a run of a script without `&` in which nothing was full is some steps of the tree machine, between
/// stages that the kernel stands for before it and after it. Where it is a call that is carried out and no step, one call fewer
/// is left to the processes of the shell, which have only so many until the machine makes a step (`calls_left`, by the tree of
/// processes); and a step leaves them at most fourteen more.
pub fn each_call_is_paid_for()
    ensures { (r : ScriptRun) (e : Event) (n : Bool) (l : KernelState User) → HasNoBack r → happens call_of next_of r.last e n ≡ Some l → l.full ≡ None → IsPaidFor r.profile r.last e l }
{}

/// In every run of a script without `&` in which nothing was full, at most fifteen times as many calls were carried out as the
/// tree machine makes steps to a stage that the kernel stands for.
pub fn the_steps_of_the_machine_pay_for_the_calls()
    ensures { (r : ScriptRun) → HasNoBack r → IsRoomy r
        → (stage : Stage) × ((way : Reaches r.profile (begin_of r) stage) × (Stands r.profile r.last stage × (calls_in_run r ≤ 15 * steps_of way))) }
{}

/// So in no run of a clear script, whatever its schedule, in which nothing was full, more calls are carried out than fifteen
/// times a number that is computed from the script, the length of the input and the sizes of the files.
pub fn a_clear_script_makes_so_many_calls()
    ensures { (r : ScriptRun) → IsClearScript r.lines → IsRoomy r → calls_in_run r ≤ 15 * most_steps r.lines r.input (files r.files) }
{}
