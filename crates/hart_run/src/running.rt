//! Runs of a script on harts that are threads.

ghost use Rattle.std.specs.Prelude.{◌≡◌, ◌≤◌, ◌↔◌, Err, IfOk, length};
ghost use Rattle.script_load.specs.Line.{lines_of};
ghost use Rattle.run_model.specs.ScriptRun.{IsOutOfTurnsFrom, script_kernel};
ghost use Rattle.kernel_events.specs.Reports.{IsRunFrom};
ghost use Rattle.kernel_threads.specs.Events.{AreOfHarts};
ghost use Rattle.kernel_threads.specs.Ranges.{AreBadHarts, AreBadTurns};
ghost use Rattle.kernel_threads.specs.declared.faults.RunFault.TheVariants.{BadHarts, BadTurns, Spent};
ghost use Rattle.hart_run.specs.Answer.{IsAnswerIfRoomy, IsAnswerIfSettled};

use kernel_events::Report;
use kernel_threads::{Gate, RunFault};
use mem_files::Files;
use mem_files::laws::are_files;
use script_load::Script;
use std::alloc::Global;
use std::sync::Wait;
use std::thread::Threads;
use std::time::Clock;

/// Runs a script by its processes on so many harts, with this standard input and these files, in at most `turns` turns. Each
/// event takes one turn. Init and the top shell begin, and the run is finished once only init is left.
///
/// Hart 0 is the calling thread, and each other hart a thread of its own; a hart whose thread can't be made takes no turns.
/// Which process a hart takes next depends on the threads, and doesn't matter to a settled script (`answer`): where nothing
/// was full, the report has the output and the files of the script's meaning, in which each pipe's left side runs to its end
/// first. Every thread has ended when this returns; a hart that finds nothing to do sleeps for up to a millisecond before it
/// looks again.
///
/// The faults come in their order. A refused growth inside a call is answered to its process and marked in the report;
/// elsewhere it is the fault `Memory`, unless the other harts finish the run.
#[tactic(auto, using(crate::proofs::Answers::answered, crate::proofs::Answers::roomy_answered))]
pub fn run_harts<R: Threads + Wait + Clock + Sync, G: Gate + Sync>(
    rt: &R,
    alloc: Global,
    script: &Script<Global>,
    stdin: &[u8],
    files: &Files<Global>,
    harts: u8,
    turns: u64,
    gate: &G,
) -> Result<Report<Global>, RunFault>
    ensures run { IfOk result (IsRunFrom (script_kernel script.now.profile (lines_of script.now.lines) stdin.now files.now)) }
    ensures answer { IfOk result (IsAnswerIfSettled script.now.profile (lines_of script.now.lines) stdin.now files.now) }
    ensures roomy { IfOk result (IsAnswerIfRoomy script.now.profile (lines_of script.now.lines) stdin.now files.now) }
    ensures harts { IfOk result (λ report. AreOfHarts harts report.schedule) }
    ensures turns { IfOk result (λ report. length report.schedule ≤ turns) }
    ensures bad_harts { (result ≡ Err BadHarts) ↔ AreBadHarts harts }
    ensures bad_turns { (result ≡ Err BadTurns) ↔ ((AreBadHarts harts → ⊥) × AreBadTurns turns) }
    ensures spent { result ≡ Err Spent → IsOutOfTurnsFrom (script_kernel script.now.profile (lines_of script.now.lines) stdin.now files.now) turns }
{
    are_files(files);
    kernel_threads::run_harts(rt, alloc, script, stdin, files, harts, turns, gate)
}
