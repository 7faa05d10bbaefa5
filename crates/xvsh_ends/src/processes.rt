//! How a run by processes ends, and a replay.
ghost use Rattle.std.specs.Prelude.{◌≡◌, ◌++◌, true, false, [], ℕ, List, Option, IfOk, map};
ghost use Rattle.reason_sentences.specs.Sentences.{first_text, reason_text};
ghost use Rattle.xvsh_read.specs.Path.{Path};
ghost use Rattle.xvsh_read.specs.Writing.{out_text};
ghost use Rattle.xvsh_runs.specs.Status.{full_told, run_fault_told, run_status};
ghost use Rattle.xvsh_ends.specs.Ends.{Asked, Due, IsDue, full_status, full_text, told_text, verdict_status};
ghost use Rattle.xvsh_ends.specs.Requests.{json_asked, replay_asked, run_asked};
ghost use Rattle.xvsh_read.specs.Status.{status_code};

use crate::ending::{Ending, Line, report_no_memory, report_run_fault};
use crate::objects::made_valued;
use crate::plain::verdict_status;
use crate::process_faults::process_fault_result;
use crate::run_objects::{run_object, strict_object};
use kernel_model::Full;
use reason_sentences::first_reason;
use std::alloc::{AllocError, Global};
use std::sync::Wait;
use std::thread::Threads;
use std::time::Clock;
use xvsh_read::{Host, Status};
use xvsh_runs::{
    ProcessFault, ReplayRequest, Run, RunRequest, StrictRun, run_processes, run_replay, run_strict,
};

// The report of what was full.
fn full_line(full: Full) -> &'static str
    ensures { result.now ≡ full_told full }
{
    match full {
        Full::Procs => "xvsh: full procs\n",
        Full::Open => "xvsh: full open\n",
        Full::Fds => "xvsh: full descriptors\n",
        Full::Files => "xvsh: full files\n",
        Full::Size => "xvsh: full size\n",
        Full::Memory => "xvsh: full memory\n",
    }
}

// What a run prints, and then what was full in it, with status 4; where nothing was, with this status.
fn ran(run: Run, status: Status) -> Ending
    ensures out { out_text result.output ≡ out_text run.output }
    ensures told { told_text result ≡ run.output.err.items ++ full_text run.full }
    ensures status { status_code result.status ≡ full_status run.full (status_code status) }
    ensures bad { result.bad.items ≡ run.bad.items }
{
    // the diagnostics of a run say of each command that it names no program
    let dead = Vec::new(*run.bad.allocator());
    let (line, status) = match run.full {
        Some(full) => (full_line(full), Status::NoRoom),
        None => ("", status),
    };
    Ending {
        output: run.output,
        line: Line::Fixed(line),
        status,
        recording: Some(run.recording),
        left: Some(run.files),
        hint: "",
        bad: run.bad,
        dead,
    }
}

// Prints a run: as one object, if that is requested, or as what it prints and what was full.
fn print_run(alloc: Global, command: &str, run: Run, lists_events: bool, is_json: bool) -> Ending
    ensures { (input : Option (List ℕ)) (file : Path → Option (List ℕ)) (what : Asked)
        → Due input file what (out_text run.output) (run.output.err.items ++ full_text run.full) (full_status run.full 0) → IsDue input file (json_asked is_json what) result }
{
    if is_json {
        let made = run_object(alloc, command, &run, lists_events);
        made_valued(alloc, ran(run, Status::Done), made)
    } else {
        ran(run, Status::Done)
    }
}

// Reports why there is no run, in an object if one is requested.
fn print_fault(alloc: Global, command: &str, fault: ProcessFault<'_>, is_json: bool) -> Ending
    ensures { (input : Option (List ℕ)) (file : Path → Option (List ℕ)) (what : Asked)
        → Due input file what [] (run_fault_told fault.entry) (run_status fault.entry) → IsDue input file (json_asked is_json what) result }
{
    if is_json {
        let made = process_fault_result(alloc, command, fault);
        made_valued(alloc, report_run_fault(alloc, fault), made)
    } else {
        report_run_fault(alloc, fault)
    }
}

// A strict run, with the first reason why its script isn't settled behind its diagnostics.
fn with_why(alloc: Global, strict: StrictRun) -> Result<Run, AllocError>
    ensures out { IfOk result (λ run. out_text run.output ≡ out_text strict.run.output) }
    ensures told { IfOk result (λ run. run.output.err.items ≡ strict.run.output.err.items ++ first_text (map reason_text strict.reasons.items)) }
    ensures full { IfOk result (λ run. run.full ≡ strict.run.full) }
{
    let why = first_reason(alloc, strict.reasons.as_slice())?;
    let mut run = strict.run;
    run.output.err.extend_from_slice(why.as_slice())?;
    Ok(run)
}

// Prints a strict run: whether its script is settled is in the status too.
fn strict_ran(alloc: Global, strict: StrictRun) -> Result<Ending, AllocError>
    ensures out { IfOk result (λ ending. out_text ending.output ≡ out_text strict.run.output) }
    ensures told { IfOk result (λ ending. told_text ending ≡ (strict.run.output.err.items ++ first_text (map reason_text strict.reasons.items)) ++ full_text strict.run.full) }
    ensures status { IfOk result (λ ending. status_code ending.status ≡ full_status strict.run.full (verdict_status true strict.is_settled)) }
{
    let status = verdict_status(true, strict.is_settled);
    let run = with_why(alloc, strict)?;
    Ok(ran(run, status))
}

// The same, as one object, if that is requested.
fn print_strict(
    alloc: Global,
    strict: StrictRun,
    lists_events: bool,
    is_json: bool,
) -> Result<Ending, AllocError>
    ensures { IfOk result (λ ending. (input : Option (List ℕ)) (file : Path → Option (List ℕ)) (what : Asked)
        → Due input file what (out_text strict.run.output) ((strict.run.output.err.items ++ first_text (map reason_text strict.reasons.items)) ++ full_text strict.run.full) (full_status strict.run.full (verdict_status true strict.is_settled)) → IsDue input file (json_asked is_json what) ending) }
{
    if is_json {
        let made = strict_object(alloc, &strict, lists_events);
        let ending = strict_ran(alloc, strict)?;
        Ok(made_valued(alloc, ending, made))
    } else {
        strict_ran(alloc, strict)
    }
}

// Runs a script by its processes, and returns what it prints and what was full, or why it can't be run.
fn processes_ending<R: Threads + Wait + Clock + Sync, H: Host>(
    rt: &R,
    alloc: Global,
    request: &RunRequest<'_>,
    host: &mut H,
) -> Ending
    ensures { IsDue (H.input host.old) (H.file host.old) (json_asked request.now.is_json (run_asked false request.now)) result }
{
    match run_processes(rt, alloc, request, host) {
        Ok(run) => print_run(alloc, "run", run, request.lists.events, request.is_json),
        Err(fault) => print_fault(alloc, "run", fault, request.is_json),
    }
}

// The same, strictly: a reason why the script isn't settled stands behind the diagnostics.
fn strict_ending<R: Threads + Wait + Clock + Sync, H: Host>(
    rt: &R,
    alloc: Global,
    request: &RunRequest<'_>,
    host: &mut H,
) -> Ending
    ensures { IsDue (H.input host.old) (H.file host.old) (json_asked request.now.is_json (run_asked true request.now)) result }
{
    match run_strict(rt, alloc, request, host) {
        Ok(strict) => match print_strict(alloc, strict, request.lists.events, request.is_json) {
            Ok(ending) => ending,
            Err(_) => report_no_memory(alloc),
        },
        Err(fault) => print_fault(alloc, "run", fault, request.is_json),
    }
}

/// Runs a script by its processes, strictly if that is requested, and returns what it prints and what was full, or why it
/// can't be run; as one object of JSON, if that is requested.
pub fn run_ending<R: Threads + Wait + Clock + Sync, H: Host>(
    rt: &R,
    alloc: Global,
    request: &RunRequest<'_>,
    host: &mut H,
) -> Ending
    ensures { IsDue (H.input host.old) (H.file host.old) (json_asked request.now.is_json (run_asked request.now.is_strict request.now)) result }
{
    if request.is_strict {
        strict_ending(rt, alloc, request, host)
    } else {
        processes_ending(rt, alloc, request, host)
    }
}

/// Replays a schedule, and returns what the run prints and what was full, or why it can't be run; as one object of JSON, if that
/// is requested.
pub fn replay_ending<H: Host>(alloc: Global, request: &ReplayRequest<'_>, host: &mut H) -> Ending
    ensures { IsDue (H.input host.old) (H.file host.old) (json_asked request.now.is_json (replay_asked request.now)) result }
{
    match run_replay(alloc, request, host) {
        Ok(run) => print_run(alloc, "replay", run, request.lists.events, request.is_json),
        Err(fault) => print_fault(alloc, "replay", fault, request.is_json),
    }
}
