//! Laws of runs on harts: each function's contract is the law, and its body is empty.

ghost use Rattle.std.specs.Prelude.{◌≡◌, List};
ghost use Rattle.std.specs.Coded.{Coded};
ghost use base.Stored.{Gv};
ghost use Rattle.mem_files.specs.Name.{Bytes, Name};
ghost use Rattle.mem_files.specs.Listing.{AreFiles};
ghost use Rattle.script_load.specs.Line.{lines_of};
ghost use Rattle.sh_machine.specs.State.{User};
ghost use Rattle.sh_machine.specs.Turn.{call_of, next_of};
ghost use Rattle.hart_run.specs.Answer.{IsAnswerIfSettled};
ghost use Rattle.run_model.specs.ScriptRun.{script_kernel};
ghost use Rattle.kernel_threads.specs.Boots.{number_of};
ghost use Rattle.kernel_threads.specs.Reports.{IsFinishedFrom};

use kernel_events::Report;
use script_load::Script;
use std::alloc::{Allocator, Global};

/// The answer of `close`. Where its clause `finished` holds of a kernel that was booted with a script's machines, on whatever
/// harts: if the script is settled and nothing was full, the report has the output and the files of the script's recursive
/// meaning, soft files left out.
pub fn a_closed_run_of_a_settled_script_is_its_meaning<A: Allocator>(
    _script: &Script<A>,
    _report: &Report<Global>,
)
    ensures { (input : Bytes) (list : List (Name × Bytes)) (code : Coded User) (boot : Gv) → AreFiles list
        → number_of code (script_kernel _script.now.profile (lines_of _script.now.lines) input list) ≡ boot
        → IsFinishedFrom code call_of next_of boot _report.now
        → IsAnswerIfSettled _script.now.profile (lines_of _script.now.lines) input list _report.now }
{}
