//! Runs of a script in some way.

ghost use Rattle.std.specs.Prelude.{◌≡◌, Err, IfOk};
ghost use Rattle.script_load.specs.Line.{lines_of};
ghost use Rattle.kernel_events.specs.Reports.{IsRunFrom};
ghost use Rattle.grade_verdicts.specs.Judged.{start_of};
ghost use Rattle.grade_jobs.specs.Ways.{IsOnHarts, IsRunOf, IsSpentIn};
ghost use Rattle.grade_jobs.specs.declared.runs.WayFault.TheVariants.{Spent};

use crate::ways::Way;
use grade_verdicts::{Task, turns_of};
use hart_run::{OpenGate, RunFault, run_harts};
use kernel_events::Report;
use kernel_runs::{Order, RunOneFault, replay, run_in_order};
use script_load::Script;
use std::alloc::{AllocError, Global};
use std::sync::Wait;
use std::thread::Threads;
use std::time::Clock;

// Why a run gives no report.
#[derive(Clone, Copy, Debug)]
pub enum WayFault {
    // It took all its turns, and isn't finished.
    Spent,
    // Memory was refused.
    Memory,
}

// Runs the script on one hart in this order.
fn run_in(
    alloc: Global,
    task: &Task<'_>,
    script: &Script<Global>,
    order: Order,
) -> Result<Report<Global>, WayFault>
    requires { script.now.profile ≡ task.now.profile }
    ensures run { IfOk result (IsRunOf task.now (lines_of script.now.lines)) }
    ensures harts { IfOk result (λ report. IsOnHarts (Way.InOrder order) report.schedule) }
    ensures spent { result ≡ Err Spent → IsSpentIn task.now (lines_of script.now.lines) }
{
    let turns = turns_of(task);
    match run_in_order(alloc, script, task.stdin, task.files, turns, order) {
        Ok(report) => Ok(report),
        Err(RunOneFault::Spent) => Err(WayFault::Spent),
        Err(RunOneFault::BadTurns) => Err(WayFault::Memory),
        Err(RunOneFault::Memory) => Err(WayFault::Memory),
    }
}

// Runs the script on so many harts.
fn run_on<R: Threads + Wait + Clock + Sync>(
    rt: &R,
    alloc: Global,
    task: &Task<'_>,
    script: &Script<Global>,
    harts: u8,
) -> Result<Report<Global>, WayFault>
    requires { script.now.profile ≡ task.now.profile }
    ensures run { IfOk result (IsRunOf task.now (lines_of script.now.lines)) }
    ensures harts { IfOk result (λ report. IsOnHarts (Way.OnHarts harts) report.schedule) }
    ensures spent { result ≡ Err Spent → IsSpentIn task.now (lines_of script.now.lines) }
{
    let turns = turns_of(task);
    match run_harts(
        rt, alloc, script, task.stdin, task.files, harts, turns, &OpenGate,
    ) {
        Ok(report) => Ok(report),
        Err(RunFault::Spent) => Err(WayFault::Spent),
        Err(_) => Err(WayFault::Memory),
    }
}

/// Runs the script in this way.
pub fn run_way<R: Threads + Wait + Clock + Sync>(
    rt: &R,
    alloc: Global,
    task: &Task<'_>,
    script: &Script<Global>,
    way: Way,
) -> Result<Report<Global>, WayFault>
    requires { script.now.profile ≡ task.now.profile }
    ensures run { IfOk result (IsRunOf task.now (lines_of script.now.lines)) }
    ensures harts { IfOk result (λ report. IsOnHarts way report.schedule) }
    ensures spent { result ≡ Err Spent → IsSpentIn task.now (lines_of script.now.lines) }
{
    match way {
        Way::InOrder(order) => run_in(alloc, task, script, order),
        Way::OnHarts(harts) => run_on(rt, alloc, task, script, harts),
    }
}

/// Runs the script by the schedule of this run, which is refused only where memory was in one of the two.
pub fn run_again(
    alloc: Global,
    task: &Task<'_>,
    script: &Script<Global>,
    report: &Report<Global>,
) -> Result<Report<Global>, AllocError>
    requires { script.now.profile ≡ task.now.profile }
    ensures run { IfOk result (IsRunFrom (start_of task.now (lines_of script.now.lines))) }
    ensures schedule { IfOk result (λ again. again.schedule ≡ report.now.schedule) }
{
    let events = report.schedule.as_slice();
    match replay(alloc, script, task.stdin, task.files, events) {
        Ok(again) => Ok(again),
        Err(_) => Err(AllocError),
    }
}
