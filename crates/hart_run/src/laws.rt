//! The laws of a kernel's runs. Each function's contract is the law, and its body is empty.
//!
//! Those of reports stand here. The others stand in the crates of laws, and are given out here: no wake-up is lost, the kernel
//! stands for the tree machine, file steps of a pipe's two sides commute, each step keeps the final value, a finished run gives
//! the meaning, and no run is stuck.

ghost use Rattle.std.specs.Prelude.{◌≡◌, List, None};
ghost use Rattle.mem_files.specs.Name.{Bytes, Name};
ghost use Rattle.mem_files.specs.Files.{files};
ghost use Rattle.mem_files.specs.Listing.{AreFiles};
ghost use Rattle.script_load.specs.declared.profile.Profile.{Profile};
ghost use Rattle.script_load.specs.Line.{lines_of};
ghost use Rattle.meaning_model.specs.Meaning.{script_meaning};
ghost use Rattle.meaning_model.specs.Settled.{IsSettledScript};
ghost use Rattle.hart_run.specs.Answer.{IsAnswerIfSettled};
ghost use Rattle.kernel_events.specs.Reports.{IsRunFrom};
ghost use Rattle.run_model.specs.ScriptRun.{script_kernel};
ghost use Rattle.hart_run.specs.Alike.{AreAlike};

use kernel_events::Report;
pub use law_kernel::kernel::{
    an_entry_is_open_while_a_descriptor_holds_it, an_exit_closes_every_descriptor,
    no_wake_up_is_lost,
};
pub use law_runs::bounds::{
    every_run_ends_with_the_meaning, every_run_is_finished_after_so_many_events,
};
pub use law_runs::never_stuck::no_run_is_stuck;
pub use law_runs::standing::{
    a_finished_run_gives_the_meaning, every_run_stands_for_the_tree_machine,
};
pub use law_trees::trees::{each_step_keeps_the_final_value, steps_of_the_two_sides_commute};
use script_load::Script;
use std::alloc::Allocator;

/// A report is that of a finished run of a script where the contract of `run_one`, `run_harts` or `replay` says so of theirs.
///
/// For every settled script under either profile, any standard input and files, and every schedule, on one hart or on eight:
/// if the run finishes and nothing was full, the standard output and every file that isn't soft are exactly those of the
/// recursive meaning, in which each pipe's left side runs to its end first.
pub fn a_settled_script_has_one_answer<A: Allocator, B: Allocator>(
    _script: &Script<A>,
    _report: &Report<B>,
)
    ensures { (profile : Profile) (input : Bytes) (list : List (Name × Bytes)) → AreFiles list
        → IsRunFrom (script_kernel profile (lines_of _script.now.lines) input list) _report.now
        → IsAnswerIfSettled profile (lines_of _script.now.lines) input list _report.now }
{}

/// So two such runs of one script, under one profile and on the same standard input and files, leave the same output, and the
/// same files but for soft ones.
pub fn two_runs_of_a_settled_script_agree<A: Allocator, B: Allocator, C: Allocator>(
    _script: &Script<A>,
    _first: &Report<B>,
    _second: &Report<C>,
)
    ensures { (profile : Profile) (input : Bytes) (list : List (Name × Bytes)) → AreFiles list → IsSettledScript profile (lines_of _script.now.lines) input (files list)
        → IsRunFrom (script_kernel profile (lines_of _script.now.lines) input list) _first.now → _first.now.full ≡ None
        → IsRunFrom (script_kernel profile (lines_of _script.now.lines) input list) _second.now → _second.now.full ≡ None
        → AreAlike (script_meaning profile (lines_of _script.now.lines) input (files list)).soft _first.now _second.now }
{}
