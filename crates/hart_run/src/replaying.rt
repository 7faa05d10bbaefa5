//! Replays: the events of a schedule, one after the other.

ghost use Rattle.std.specs.Prelude.{◌≡◌, IfErr, IfOk};
ghost use Rattle.script_load.specs.Line.{lines_of};
ghost use Rattle.run_model.specs.ScriptRun.{script_kernel};
ghost use Rattle.kernel_events.specs.Reports.{IsRunFrom};
ghost use Rattle.kernel_runs.specs.Refused.{IsReplayFault};
ghost use Rattle.hart_run.specs.Answer.{IsAnswerIfRoomy, IsAnswerIfSettled};

use kernel_events::{Event, Report};
use kernel_runs::ReplayFault;
use mem_files::Files;
use mem_files::laws::are_files;
use script_load::Script;
use std::alloc::Allocator;

/// Runs a script by these events and no others, with this standard input and these files, and gives the report of that run.
/// The events may be any: the fault is that of the first which can't take place. So whatever the events, the report of a
/// settled script in which nothing was full has the output and the files of the script's meaning (`answer`).
#[tactic(auto, using(crate::proofs::Answers::answered, crate::proofs::Answers::roomy_answered))]
pub fn replay<A: Allocator + Copy, B: Allocator, C: Allocator>(
    alloc: A,
    script: &Script<B>,
    stdin: &[u8],
    files: &Files<C>,
    events: &[Event],
) -> Result<Report<A>, ReplayFault>
    ensures run { IfOk result (IsRunFrom (script_kernel script.now.profile (lines_of script.now.lines) stdin.now files.now)) }
    ensures answer { IfOk result (IsAnswerIfSettled script.now.profile (lines_of script.now.lines) stdin.now files.now) }
    ensures roomy { IfOk result (IsAnswerIfRoomy script.now.profile (lines_of script.now.lines) stdin.now files.now) }
    ensures schedule { IfOk result (λ report. report.schedule ≡ events.now) }
    ensures fault { IfErr result (IsReplayFault (script_kernel script.now.profile (lines_of script.now.lines) stdin.now files.now) events.now) }
{
    are_files(files);
    kernel_runs::replay(alloc, script, stdin, files, events)
}
