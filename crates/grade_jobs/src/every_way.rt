//! Verdicts by runs of every kind.

ghost use Rattle.std.specs.Prelude.{◌≡◌, ◌≢◌, IfOk, IfSome, None, Ok, All};
ghost use Rattle.script_load.specs.Line.{lines_of};
ghost use Rattle.grade_verdicts.specs.Judged.{IsInTime, IsJudged, IsPass, IsVerdict};
ghost use Rattle.grade_jobs.specs.Ways.{AllRunsAgree, IsNoPass, IsRunOf, LeavesRight, RunsRight, RunsRightInEveryWay, every_way};

use crate::runs::{WayFault, run_again, run_way};
use crate::ways::{WAYS, Way};
use grade_verdicts::{Task, Verdict, first_difference, judge_script, passes, read_script};
use kernel_events::Report;
use kernel_model::Full;
use script_load::Script;
use std::alloc::{AllocError, Global};
use std::sync::Wait;
use std::thread::Threads;
use std::time::Clock;

// The verdict on a script in a run of which this was full.
fn no_room(full: Full) -> Result<Verdict, AllocError>
    ensures { IfOk result (λ verdict. (verdict ≡ Verdict.NoRoom full) × (full ≢ Full.Memory)) }
{
    match full {
        Full::Memory => Err(AllocError),
        Full::Procs | Full::Open | Full::Fds | Full::Files | Full::Size => {
            Ok(Verdict::NoRoom(full))
        }
    }
}

// The verdict on a script one run of which left this; `None` where nothing was full in it and it left what is expected.
fn judge_run(
    alloc: Global,
    task: &Task<'_>,
    script: &Script<Global>,
    report: &Report<Global>,
) -> Result<Option<Verdict>, AllocError>
    requires run { IsRunOf task.now (lines_of script.now.lines) report.now }
    requires agree { AllRunsAgree task.now (lines_of script.now.lines) }
    ensures verdict { IfOk result (λ found. IfSome found (IsNoPass task.now (lines_of script.now.lines))) }
    ensures right { result ≡ Ok None → LeavesRight task.now (lines_of script.now.lines) report.now.schedule }
{
    match report.full {
        Some(full) => {
            let verdict = no_room(full)?;
            return Ok(Some(verdict));
        }
        None => {}
    }
    let difference = first_difference(alloc, task.expected, report.out.as_slice(), &report.files)?;
    match difference {
        Some(difference) => Ok(Some(Verdict::Wrong(difference))),
        None => Ok(None),
    }
}

// The verdict on a script that is run in this way, and again by the schedule of that run; `None` where both leave what is expected.
fn judge_way<R: Threads + Wait + Clock + Sync>(
    rt: &R,
    alloc: Global,
    task: &Task<'_>,
    script: &Script<Global>,
    way: Way,
) -> Result<Option<Verdict>, AllocError>
    requires profile { script.now.profile ≡ task.now.profile }
    requires agree { AllRunsAgree task.now (lines_of script.now.lines) }
    ensures verdict { IfOk result (λ found. IfSome found (IsNoPass task.now (lines_of script.now.lines))) }
    ensures right { result ≡ Ok None → RunsRight task.now (lines_of script.now.lines) way }
{
    let report = match run_way(rt, alloc, task, script, way) {
        Ok(report) => report,
        Err(WayFault::Spent) => return Ok(Some(Verdict::Spent)),
        Err(WayFault::Memory) => return Err(AllocError),
    };
    if let Some(verdict) = judge_run(alloc, task, script, &report)? {
        return Ok(Some(verdict));
    }
    let again = run_again(alloc, task, script, &report)?;
    judge_run(alloc, task, script, &again)
}

// The verdict on a script that is run in each of these ways; `None` where each leaves what is expected.
fn judge_ways<R: Threads + Wait + Clock + Sync>(
    rt: &R,
    alloc: Global,
    task: &Task<'_>,
    script: &Script<Global>,
    ways: &[Way],
) -> Result<Option<Verdict>, AllocError>
    requires profile { script.now.profile ≡ task.now.profile }
    requires agree { AllRunsAgree task.now (lines_of script.now.lines) }
    ensures verdict { IfOk result (λ found. IfSome found (IsNoPass task.now (lines_of script.now.lines))) }
    ensures right { result ≡ Ok None → All (RunsRight task.now (lines_of script.now.lines)) ways.now }
{
    for way in ways {
        if let Some(verdict) = judge_way(rt, alloc, task, script, *way)? {
            return Ok(Some(verdict));
        }
    }
    Ok(None)
}

// What the test says of the script, as `judge_script`; where that is a pass, the script is run in each of `WAYS`, too.
fn judge_all_ways<R: Threads + Wait + Clock + Sync>(
    rt: &R,
    alloc: Global,
    task: &Task<'_>,
    script: &Script<Global>,
) -> Result<Verdict, AllocError>
    requires { script.now.profile ≡ task.now.profile }
    ensures verdict { IfOk result (IsVerdict task.now (lines_of script.now.lines)) }
    ensures time { IfOk result (IsInTime task.now (lines_of script.now.lines)) }
    ensures ways { IfOk result (λ verdict. IsPass verdict → All (RunsRight task.now (lines_of script.now.lines)) every_way) }
{
    let verdict = judge_script(alloc, task, script)?;
    if !passes(&verdict) {
        return Ok(verdict);
    }
    let found = judge_ways(rt, alloc, task, script, WAYS.as_slice())?;
    match found {
        Some(other) => Ok(other),
        None => Ok(verdict),
    }
}

/// What the test says of these bytes as a script, as `judge`; where that is a pass, the script is run in each of `WAYS`, and again by
/// the schedule of each of these runs (own).
///
/// The verdict is due, as of `judge` (`due`), and it is a pass only where a finished run on the harts of each way left what is expected,
/// and nothing was full in it (`ways`). Where something was full in one of these runs, the verdict is `NoRoom`.
///
/// `AllocError` where memory is refused, to a process of one of these runs too.
pub fn judge_every_way<R: Threads + Wait + Clock + Sync>(
    rt: &R,
    alloc: Global,
    task: &Task<'_>,
    bytes: &[u8],
) -> Result<Verdict, AllocError>
    ensures due { IfOk result (IsJudged task.now bytes.now) }
    ensures ways { IfOk result (RunsRightInEveryWay task.now bytes.now) }
{
    match read_script(alloc, task, bytes)? {
        Ok(script) => judge_all_ways(rt, alloc, task, &script),
        Err(verdict) => Ok(verdict),
    }
}
