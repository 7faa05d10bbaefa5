//! Runs of a script on one hart.

ghost use Rattle.std.specs.Prelude.{◌≡◌, ◌≤◌, ◌<◌, ◌⊎◌, ◌↔◌, All, IfOk, Err, length, true, false};
ghost use Rattle.conflict_check.specs.Clear.{has_back};
ghost use Rattle.script_load.specs.Line.{lines_of};
ghost use Rattle.meaning_model.specs.Meaning.{script_tree};
ghost use Rattle.script_load.specs.declared.limits.TheConstants.{MAX_TURNS};
ghost use Rattle.run_model.specs.ScriptRun.{IsOutOfTurnsIfRoomy, IsSpentFrom, script_kernel};
ghost use Rattle.kernel_events.specs.Harts.{is_of_hart};
ghost use Rattle.kernel_events.specs.Reports.{IsRunFrom};
ghost use Rattle.hart_run.specs.Answer.{IsAnswerIfRoomy, IsAnswerIfSettled};

use kernel_events::Report;
use kernel_runs::{Order, RunOneFault};
use mem_files::Files;
use mem_files::laws::are_files;
use script_load::Script;
use std::alloc::Allocator;

/// Runs a script by its processes on hart 0, with this standard input and these files, in at most `turns` turns. Each event
/// takes one turn. Init and the top shell begin, and the run is finished once only init is left.
///
/// Which Runnable process gets a turn is the kernel's choice. A refused growth inside a call is answered to its process and
/// marked in the report; elsewhere it is the fault `Memory`. Neither matters to a settled script (`answer`): where nothing
/// was full, the report has the output and the files of the script's meaning, in which each pipe's left side runs to its end
/// first.
///
/// The faults come in their order: `BadTurns`, `Spent`, `Memory`. With `Spent` fewer than two turns are left, but for a script
/// with `&` or where something was full: only there may nothing be Runnable in its place (`turns_spent`).
pub fn run_one<A: Allocator + Copy, B: Allocator, C: Allocator>(
    alloc: A,
    script: &Script<B>,
    stdin: &[u8],
    files: &Files<C>,
    turns: u64,
) -> Result<Report<A>, RunOneFault>
    ensures run { IfOk result (IsRunFrom (script_kernel script.now.profile (lines_of script.now.lines) stdin.now files.now)) }
    ensures answer { IfOk result (IsAnswerIfSettled script.now.profile (lines_of script.now.lines) stdin.now files.now) }
    ensures roomy { IfOk result (IsAnswerIfRoomy script.now.profile (lines_of script.now.lines) stdin.now files.now) }
    ensures hart { IfOk result (λ report. All (λ event. is_of_hart 0 event ≡ true) report.schedule) }
    ensures turns { IfOk result (λ report. length report.schedule ≤ turns) }
    ensures bad_turns { (result ≡ Err RunOneFault.BadTurns) ↔ ((turns ≡ 0) ⊎ (MAX_TURNS < turns)) }
    ensures spent { result ≡ Err RunOneFault.Spent → IsSpentFrom (script_kernel script.now.profile (lines_of script.now.lines) stdin.now files.now) turns }
    ensures turns_spent { result ≡ Err RunOneFault.Spent → has_back (script_tree (lines_of script.now.lines)) ≡ false
        → IsOutOfTurnsIfRoomy (script_kernel script.now.profile (lines_of script.now.lines) stdin.now files.now) turns }
{
    run_in_order(alloc, script, stdin, files, turns, Order::Kernel)
}

/// The same in this order: whichever of the Runnable processes takes each turn, the report of a settled script in which nothing was
/// full has the output and the files of the script's meaning (`answer`).
#[tactic(auto, using(crate::proofs::Answers::answered, crate::proofs::Answers::roomy_answered))]
pub fn run_in_order<A: Allocator + Copy, B: Allocator, C: Allocator>(
    alloc: A,
    script: &Script<B>,
    stdin: &[u8],
    files: &Files<C>,
    turns: u64,
    order: Order,
) -> Result<Report<A>, RunOneFault>
    ensures run { IfOk result (IsRunFrom (script_kernel script.now.profile (lines_of script.now.lines) stdin.now files.now)) }
    ensures answer { IfOk result (IsAnswerIfSettled script.now.profile (lines_of script.now.lines) stdin.now files.now) }
    ensures roomy { IfOk result (IsAnswerIfRoomy script.now.profile (lines_of script.now.lines) stdin.now files.now) }
    ensures hart { IfOk result (λ report. All (λ event. is_of_hart 0 event ≡ true) report.schedule) }
    ensures turns { IfOk result (λ report. length report.schedule ≤ turns) }
    ensures bad_turns { (result ≡ Err RunOneFault.BadTurns) ↔ ((turns ≡ 0) ⊎ (MAX_TURNS < turns)) }
    ensures spent { result ≡ Err RunOneFault.Spent → IsSpentFrom (script_kernel script.now.profile (lines_of script.now.lines) stdin.now files.now) turns }
    ensures turns_spent { result ≡ Err RunOneFault.Spent → has_back (script_tree (lines_of script.now.lines)) ≡ false
        → IsOutOfTurnsIfRoomy (script_kernel script.now.profile (lines_of script.now.lines) stdin.now files.now) turns }
{
    are_files(files);
    kernel_runs::run_in_order(alloc, script, stdin, files, turns, order)
}
