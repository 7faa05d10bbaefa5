//! `replay`: a script by the events of a schedule.
ghost use Rattle.std.specs.Prelude.{◌≡◌, ◌&&◌, IfOk, IfErr, codes};
ghost use Rattle.std.specs.Str.{bytes_eq};
ghost use Rattle.sh_machine.specs.State.{User};
ghost use Rattle.kernel_model.specs.KernelState.{KernelState};
ghost use Rattle.kernel_events.specs.Reports.{IsRunFrom};
ghost use Rattle.kernel_runs.specs.Refused.{IsReplayFault};
ghost use Rattle.schedule_lines.specs.EventLines.{AreLinesOf};
ghost use Rattle.xvsh_read.specs.declared.fault.Fault.TheVariants.{Memory};
ghost use Rattle.xvsh_read.specs.Writing.{out_text};
ghost use Rattle.xvsh_runs.specs.Kernels.{kernel_of};
ghost use Rattle.xvsh_runs.specs.Runs.{DidReplay};
ghost use Rattle.xvsh_runs.specs.Values.{RanValues};
ghost use Rattle.xvsh_runs.specs.Why.{IsBytesFault, IsEventsFault, IsLinesFault, IsReplayRefusal};

use crate::fault::ProcessFault;
use crate::report::{Run, run_of};
use crate::request::ReplayRequest;
use hart_run::{ReplayFault, Report, replay};
use kernel_model::Event;
use schedule_lines::{ScheduleFault, read_schedule};
use std::alloc::Global;
use xvsh_read::{Fault, Host, STDIN, Start, prepare, read};

/// The most bytes that a schedule may have (own): those of a run of 10,000,000 turns.
pub const MAX_SCHEDULE: usize = 70_000_000;

// The events of the schedule that was read at a path.
fn events_of<'a>(alloc: Global, path: &'a str, bytes: &[u8]) -> Result<Vec<Event>, ProcessFault<'a>>
    ensures events { IfOk result (λ events. AreLinesOf bytes.now events.items) }
    ensures fault { IfErr result (IsLinesFault path.now bytes.now) }
{
    match read_schedule(alloc, bytes) {
        Ok(events) => Ok(events),
        Err(ScheduleFault::NoEvent(line)) => Err(ProcessFault::NoEvent(path, line)),
        Err(ScheduleFault::Memory) => Err(ProcessFault::Common(Fault::Memory)),
    }
}

// The fault of a replay of these events, with the process and the hart of the event that couldn't take place.
fn fault_of<'a>(events: &[Event], fault: ReplayFault) -> ProcessFault<'a>
    requires { (start : KernelState User) × IsReplayFault start events.now fault }
    ensures told { (start : KernelState User) → IsReplayFault start events.now fault → IsEventsFault start events.now result }
    ensures memory { result ≡ ProcessFault.Common Memory → fault ≡ ReplayFault.Memory }
{
    match fault {
        ReplayFault::NotRunnable(number) => match events.get(number - 1) {
            Some(Event::Dispatch(_, pid)) => ProcessFault::NotRunnable(number, *pid as usize),
            _ => unreachable!(),
        },
        ReplayFault::NotRunning(number) => match events.get(number - 1) {
            Some(Event::Trap(hart, pid)) => ProcessFault::NotRunning(number, *pid as usize, *hart),
            _ => unreachable!(),
        },
        ReplayFault::Unfinished => ProcessFault::Unfinished(events.len()),
        ReplayFault::Memory => ProcessFault::Common(Fault::Memory),
    }
}

// Runs what was read, by these events.
fn replay_started<'a>(
    alloc: Global,
    start: &Start,
    events: &[Event],
) -> Result<Report<Global>, ProcessFault<'a>>
    ensures run { IfOk result (IsRunFrom (kernel_of start.now)) }
    ensures schedule { IfOk result (λ report. report.schedule ≡ events.now) }
    ensures fault { IfErr result (IsEventsFault (kernel_of start.now) events.now) }
{
    match replay(
        alloc,
        &start.script,
        start.stdin.as_slice(),
        &start.files,
        events,
    ) {
        Ok(report) => Ok(report),
        Err(fault) => Err(fault_of(events, fault)),
    }
}

// The same, by the events of the schedule that was read at a path.
fn replay_bytes<'a>(
    alloc: Global,
    path: &'a str,
    bytes: &[u8],
    start: &Start,
) -> Result<Report<Global>, ProcessFault<'a>>
    ensures run { IfOk result (IsRunFrom (kernel_of start.now)) }
    ensures schedule { IfOk result (λ report. AreLinesOf bytes.now report.schedule) }
    ensures fault { IfErr result (IsBytesFault (kernel_of start.now) path.now bytes.now) }
{
    let events = events_of(alloc, path, bytes)?;
    replay_started(alloc, start, events.as_slice())
}

// On how many harts these events are: the first ones, up to the last that has one.
fn harts_of(events: &[Event]) -> u8 {
    let mut harts = 1;
    for event in events {
        let (Event::Dispatch(hart, _) | Event::Trap(hart, _)) = *event;
        harts = hart.saturating_add(1).max(harts);
    }
    harts
}

// Whether the schedule and the script would both be read from standard input.
fn shares_input(schedule: &str, script: &str) -> bool
    ensures { result ≡ (bytes_eq schedule.now (codes "-") && bytes_eq script.now (codes "-")) }
{
    schedule == STDIN && script == STDIN
}

/// `replay`: reads the schedule, the script, the files in order, and standard input unless one of the two is that, and runs the
/// script by the events of the schedule. Returns its output with the list of the files where it is requested, its diagnostics,
/// and what was full, if something was. Nothing is written.
pub fn run_replay<'a, H: Host>(
    alloc: Global,
    request: &ReplayRequest<'a>,
    host: &mut H,
) -> Result<Run, ProcessFault<'a>>
    ensures ran { IfOk result (λ run. DidReplay (H.input host.old) (H.file host.old) request.now run.full (out_text run.output) run.output.err.items) }
    ensures values { IfOk result (RanValues (H.input host.old) (H.file host.old) (bytes_eq request.now.schedule.now (codes "-")) request.now.source.profile request.now.source.script.now request.now.source.files.now) }
    ensures fault { IfErr result (IsReplayRefusal (H.input host.old) (H.file host.old) request.now) }
{
    let schedule = request.schedule;
    if shares_input(schedule, request.source.script) {
        return Err(ProcessFault::SharedInput);
    }
    let bytes = read(alloc, host, schedule, MAX_SCHEDULE)?;
    let is_taken = schedule == STDIN;
    let start = prepare(alloc, host, &request.source, is_taken)?;
    let report = replay_bytes(alloc, schedule, bytes.as_slice(), &start)?;
    let harts = harts_of(report.schedule.as_slice());
    let run = run_of(alloc, start, harts, report, request.lists)?;
    Ok(run)
}
