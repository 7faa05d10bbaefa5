//! How a run ends whose trace or schedule is written.
ghost use Rattle.std.specs.Prelude.{◌≡◌, ℕ, List, Option};
ghost use Rattle.xvsh_read.specs.Path.{Path};
ghost use Rattle.xvsh_read.specs.Writing.{out_text};
ghost use Rattle.xvsh_ends.specs.Ends.{Asked, IsDue, asks_traced, beside_trace, told_text};
ghost use Rattle.xvsh_ends.specs.Requests.{traced_asked};

use crate::ending::{Ending, no_output, report_no_memory, report_untraced};
use crate::witnesses::write_file;
use schedule_lines::schedule_text;
use std::alloc::Global;
use xvsh_read::{Output, STDIN, Traces, Unwritten};
use xvsh_traces::{TraceFault, trace_run};

/// What is printed beside a trace, or a page, at this path: where that is standard output, the diagnostics alone.
pub(crate) fn beside(alloc: Global, ending: Ending, path: &str) -> Ending
    ensures out { out_text result.output ≡ beside_trace path.now (out_text ending.output) }
    ensures told { told_text result ≡ told_text ending }
    ensures status { result.status ≡ ending.status }
    ensures bad { result.bad.items ≡ ending.bad.items }
    ensures dead { result.dead.items ≡ ending.dead.items }
{
    if path != STDIN {
        return ending;
    }
    let Ending {
        output,
        line,
        status,
        recording,
        left,
        hint,
        bad,
        dead,
    } = ending;
    Ending {
        output: Output {
            err: output.err,
            ..no_output(alloc)
        },
        line,
        status,
        recording,
        left,
        hint,
        bad,
        dead,
    }
}

// Writes the trace of a run that has ended, if it has one.
fn write_recorded<T: Traces>(
    alloc: Global,
    ending: &Ending,
    path: &str,
    traces: &mut T,
) -> Result<(), TraceFault> {
    match &ending.recording {
        Some(made) => {
            traces.begin_trace(path)?;
            let schedule = made.schedule.as_slice();
            trace_run(alloc, traces, &made.start, schedule, made.harts)
        }
        None => Ok(()),
    }
}

// Writes the schedule of a run that has ended, if it has one.
fn write_schedule<T: Traces>(
    alloc: Global,
    ending: &Ending,
    path: &str,
    traces: &mut T,
) -> Result<(), TraceFault> {
    let Some(made) = &ending.recording else {
        return Ok(());
    };
    let text = schedule_text(alloc, made.schedule.as_slice())?;
    match write_file(traces, path, text.as_slice()) {
        Ok(()) => Ok(()),
        Err(Unwritten) => Err(TraceFault::Unwritten),
    }
}

// Writes the schedule at this path of a run that has ended, and returns how the program ends then.
fn scheduled_at<T: Traces>(alloc: Global, ending: Ending, path: &str, traces: &mut T) -> Ending
    ensures { (input : Option (List ℕ)) (file : Path → Option (List ℕ)) (what : Asked) → IsDue input file what ending → IsDue input file (asks_traced what path.now) result }
{
    match write_schedule(alloc, &ending, path, traces) {
        Ok(()) => beside(alloc, ending, path),
        Err(TraceFault::Unwritten) => report_untraced(alloc, path),
        Err(TraceFault::Memory) => report_no_memory(alloc),
    }
}

/// Writes the schedule of a run that has ended, if it is to be written, and returns how the program ends then: as `traced`.
pub(crate) fn scheduled<T: Traces>(
    alloc: Global,
    ending: Ending,
    schedule_to: Option<&str>,
    traces: &mut T,
) -> Ending
    ensures { (input : Option (List ℕ)) (file : Path → Option (List ℕ)) (what : Asked) → IsDue input file what ending → IsDue input file (traced_asked schedule_to.entry what) result }
{
    match schedule_to {
        Some(path) => scheduled_at(alloc, ending, path, traces),
        None => ending,
    }
}

// Writes the trace at this path of a run that has ended, and returns how the program ends then.
fn traced_at<T: Traces>(alloc: Global, ending: Ending, path: &str, traces: &mut T) -> Ending
    ensures { (input : Option (List ℕ)) (file : Path → Option (List ℕ)) (what : Asked) → IsDue input file what ending → IsDue input file (asks_traced what path.now) result }
{
    match write_recorded(alloc, &ending, path, traces) {
        Ok(()) => beside(alloc, ending, path),
        Err(TraceFault::Unwritten) => report_untraced(alloc, path),
        Err(TraceFault::Memory) => report_no_memory(alloc),
    }
}

/// Writes the trace of a run that has ended, if there is to be one, and returns how the program ends then: as before, but
/// without an output where the trace goes there; or with the report that the trace can't be written.
pub(crate) fn traced<T: Traces>(
    alloc: Global,
    ending: Ending,
    trace: Option<&str>,
    traces: &mut T,
) -> Ending
    ensures { (input : Option (List ℕ)) (file : Path → Option (List ℕ)) (what : Asked) → IsDue input file what ending → IsDue input file (traced_asked trace.entry what) result }
{
    match trace {
        Some(path) => traced_at(alloc, ending, path, traces),
        None => ending,
    }
}
