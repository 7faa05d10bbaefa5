//! `run`: a script by its processes on some harts.
ghost use Rattle.std.specs.Prelude.{◌≡◌, ◌≤◌, IfOk, IfErr, length, false};
ghost use Rattle.script_load.specs.Line.{lines_of};
ghost use Rattle.dead_lines.specs.Dead.{bad_lines};
ghost use Rattle.kernel_events.specs.Reports.{IsRunFrom};
ghost use Rattle.kernel_threads.specs.Events.{AreOfHarts};
ghost use Rattle.xvsh_read.specs.Writing.{out_text};
ghost use Rattle.xvsh_runs.specs.Kernels.{kernel_of};
ghost use Rattle.xvsh_runs.specs.Runs.{DidRun, DidRunFrom};
ghost use Rattle.xvsh_runs.specs.Values.{HasValues, RanValues};
ghost use Rattle.xvsh_runs.specs.Why.{IsHartsFault, IsRefusedFrom, IsRunRefusal};

use crate::fault::ProcessFault;
use crate::limit::limit_of;
use crate::ordering::order_of;
use crate::report::{Run, run_of};
use crate::request::RunRequest;
use hart_run::{OpenGate, Order, Report, run_harts, run_in_order};
use std::alloc::Global;
use std::sync::Wait;
use std::thread::Threads;
use std::time::Clock;
use xvsh_read::{Host, Start, prepare};

// Runs what was read on hart 0, on this thread alone, in at most so many turns, in this order.
fn run_alone<'a>(
    alloc: Global,
    start: &Start,
    turns: u64,
    order: Order,
) -> Result<Report<Global>, ProcessFault<'a>>
    ensures run { IfOk result (IsRunFrom (kernel_of start.now)) }
    ensures harts { IfOk result (λ report. AreOfHarts 1 report.schedule) }
    ensures turns { IfOk result (λ report. length report.schedule ≤ turns) }
    ensures fault { IfErr result (IsHartsFault (kernel_of start.now) 1 turns) }
{
    let report = run_in_order(
        alloc,
        &start.script,
        start.stdin.as_slice(),
        &start.files,
        turns,
        order,
    )?;
    Ok(report)
}

// Runs what was read on so many harts, each a thread, in at most so many turns.
fn run_on_threads<'a, R: Threads + Wait + Clock + Sync>(
    rt: &R,
    alloc: Global,
    start: &Start,
    harts: u8,
    turns: u64,
) -> Result<Report<Global>, ProcessFault<'a>>
    ensures run { IfOk result (IsRunFrom (kernel_of start.now)) }
    ensures harts { IfOk result (λ report. AreOfHarts harts report.schedule) }
    ensures turns { IfOk result (λ report. length report.schedule ≤ turns) }
    ensures fault { IfErr result (IsHartsFault (kernel_of start.now) harts turns) }
{
    let report = run_harts(
        rt,
        alloc,
        &start.script,
        start.stdin.as_slice(),
        &start.files,
        harts,
        turns,
        &OpenGate,
    )?;
    Ok(report)
}

// On how many harts a script is run, in at most how many turns, and in which order on one.
#[derive(Clone, Copy)]
struct Course {
    harts: u8,
    turns: u64,
    order: Order,
}

// Runs what was read: one hart needs no second thread and no lock.
fn run_started<'a, R: Threads + Wait + Clock + Sync>(
    rt: &R,
    alloc: Global,
    start: &Start,
    course: &Course,
) -> Result<Report<Global>, ProcessFault<'a>>
    ensures run { IfOk result (IsRunFrom (kernel_of start.now)) }
    ensures harts { IfOk result (λ report. AreOfHarts course.now.harts report.schedule) }
    ensures turns { IfOk result (λ report. length report.schedule ≤ course.now.turns) }
    ensures fault { IfErr result (IsHartsFault (kernel_of start.now) course.now.harts course.now.turns) }
{
    if course.harts == 1 {
        run_alone(alloc, start, course.turns, course.order)
    } else {
        run_on_threads(rt, alloc, start, course.harts, course.turns)
    }
}

// Runs what was read by its processes as the request says, in this order, and returns what it prints.
pub(crate) fn run_prepared<'a, R: Threads + Wait + Clock + Sync>(
    rt: &R,
    alloc: Global,
    start: Start,
    request: &RunRequest<'a>,
    order: Order,
) -> Result<Run, ProcessFault<'a>>
    ensures ran { IfOk result (λ run. DidRunFrom start request.now run.full (out_text run.output) run.output.err.items) }
    ensures values { IfOk result (HasValues (kernel_of start)) }
    ensures bad { IfOk result (λ run. run.bad.items ≡ bad_lines (lines_of start.script.lines)) }
    ensures fault { IfErr result (IsRefusedFrom start request.now) }
{
    let course = Course {
        harts: request.harts,
        turns: limit_of(request.turns, &start),
        order,
    };
    let report = run_started(rt, alloc, &start, &course)?;
    let run = run_of(alloc, start, request.harts, report, request.lists)?;
    Ok(run)
}

/// `run`: reads the script, the files in order, and standard input unless that is the script, and runs the script by its
/// processes on so many harts in at most so many turns, or where none are asked for in as many as it may have, on one hart in the
/// order that is asked for. Returns its output with the lists that are requested, its diagnostics, and what was full, if something
/// was. Nothing is written.
pub fn run_processes<'a, R: Threads + Wait + Clock + Sync, H: Host>(
    rt: &R,
    alloc: Global,
    request: &RunRequest<'a>,
    host: &mut H,
) -> Result<Run, ProcessFault<'a>>
    ensures ran { IfOk result (λ run. DidRun (H.input host.old) (H.file host.old) request.now run.full (out_text run.output) run.output.err.items) }
    ensures values { IfOk result (RanValues (H.input host.old) (H.file host.old) false request.now.source.profile request.now.source.script.now request.now.source.files.now) }
    ensures fault { IfErr result (IsRunRefusal (H.input host.old) (H.file host.old) request.now) }
{
    let order = order_of(request)?;
    let start = prepare(alloc, host, &request.source, false)?;
    run_prepared(rt, alloc, start, request, order)
}
