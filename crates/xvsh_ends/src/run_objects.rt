//! Runs by processes as objects of JSON.
ghost use Rattle.std.specs.Prelude.{◌≡◌};
ghost use Rattle.xvsh_ends.specs.Ends.{full_status};
ghost use Rattle.xvsh_read.specs.Status.{status_code};

use crate::plain::verdict_status;
use kernel_model::Full;
use result_json::{RunValues, Verdict, run_result};
use std::alloc::{AllocError, Global};
use xvsh_read::Status;
use xvsh_runs::{Run, StrictRun};

// The status of a run: 4 where something was full, else this one.
fn code_of(full: Option<Full>, status: Status) -> Status
    ensures { status_code result ≡ full_status full (status_code status) }
{
    match full {
        Some(_) => Status::NoRoom,
        None => status,
    }
}

// The values of a run, without those by its meaning.
fn values_of<'r>(run: &'r Run, lists_events: bool) -> RunValues<'r> {
    RunValues {
        output: run.output.out.as_slice(),
        diagnostics: run.output.err.as_slice(),
        files: &run.files,
        full: run.full,
        harts: run.recording.harts,
        lines: run.recording.start.script.lines.as_slice(),
        schedule: run.recording.schedule.as_slice(),
        lists_events,
        verdict: None,
    }
}

/// The object of a strict run.
pub(crate) fn strict_object(
    alloc: Global,
    strict: &StrictRun,
    lists_events: bool,
) -> Result<Vec<u8>, AllocError> {
    let values = RunValues {
        verdict: Some(Verdict {
            is_settled: strict.is_settled,
            soft: strict.soft.as_slice(),
            reasons: strict.reasons.as_slice(),
        }),
        ..values_of(&strict.run, lists_events)
    };
    let code = code_of(strict.run.full, verdict_status(true, strict.is_settled));
    run_result(alloc, "run", &values, code)
}

/// The object of another run, by this command.
pub(crate) fn run_object(
    alloc: Global,
    command: &str,
    run: &Run,
    lists_events: bool,
) -> Result<Vec<u8>, AllocError> {
    let values = values_of(run, lists_events);
    run_result(alloc, command, &values, code_of(run.full, Status::Done))
}
