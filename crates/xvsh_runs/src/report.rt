//! What is printed of a run.
ghost use Rattle.std.specs.Prelude.{◌≡◌, IfOk};
ghost use Rattle.script_load.specs.Line.{lines_of};
ghost use Rattle.dead_lines.specs.Dead.{bad_lines};
ghost use Rattle.xvsh_read.specs.Writing.{out_text};
ghost use Rattle.xvsh_runs.specs.Lists.{files_text, events_text, run_text};

use dead_lines::bad_lines;
use hart_run::Report;
use kernel_events::Schedule;
use kernel_model::{Event, Full};
use mem_files::Files;
use schedule_lines::schedule_text;
use sh_lexer::Bytes;
use std::alloc::{AllocError, Global};
use xvsh_read::{Output, Start, listing};

/// Which lists are printed after the output of a run.
#[derive(Clone, Copy, Debug, PartialEq, Eq)]
pub struct Lists {
    /// The files.
    pub files: bool,
    /// The events.
    pub events: bool,
}

// The list of the files, if it is requested.
fn list_files(alloc: Global, lists: bool, files: &Files<Global>) -> Result<Vec<u8>, AllocError>
    ensures { IfOk result (λ text. text.items ≡ files_text lists files.now) }
{
    if lists {
        listing(alloc, files, &[])
    } else {
        Ok(Vec::new(alloc))
    }
}

// The lines of the events, if they are requested.
fn list_events(alloc: Global, lists: bool, events: &[Event]) -> Result<Vec<u8>, AllocError>
    ensures { IfOk result (λ text. text.items ≡ events_text lists events.now) }
{
    if lists {
        schedule_text(alloc, events)
    } else {
        Ok(Vec::new(alloc))
    }
}

/// What makes a run once more: what it began with, on how many harts it was run, and its events.
#[derive(Drop)]
pub struct Recording {
    pub start: Start,
    pub harts: u8,
    pub schedule: Schedule<Global>,
}

/// A run by processes.
#[derive(Drop)]
pub struct Run {
    /// What it prints.
    pub output: Output,
    /// The files that it leaves.
    pub files: Files<Global>,
    /// What was full in it, if something was.
    pub full: Option<Full>,
    /// The numbers, from 1, of the script's lines that are no command.
    pub bad: Vec<usize>,
    /// What makes it once more.
    pub recording: Recording,
}

/// What is printed of a run: its output, the list of the files and that of the events where they are requested, and to standard
/// error its diagnostics; which lines of its script are no command; and what makes it once more.
pub fn run_of(
    alloc: Global,
    start: Start,
    harts: u8,
    report: Report<Global>,
    lists: Lists,
) -> Result<Run, AllocError>
    ensures out { IfOk result (λ run. out_text run.output ≡ run_text lists report.out.items report.files report.schedule) }
    ensures err { IfOk result (λ run. run.output.err.items ≡ report.diag.items) }
    ensures written { IfOk result (λ run. run.output.out ≡ report.out.items) }
    ensures files { IfOk result (λ run. run.files ≡ report.files) }
    ensures full { IfOk result (λ run. run.full ≡ report.full) }
    ensures bad { IfOk result (λ run. run.bad.items ≡ bad_lines (lines_of start.script.lines)) }
    ensures start { IfOk result (λ run. run.recording.start ≡ start) }
    ensures schedule { IfOk result (λ run. run.recording.schedule ≡ report.schedule) }
{
    let files = list_files(alloc, lists.files, &report.files)?;
    let events = list_events(alloc, lists.events, report.schedule.as_slice())?;
    let bad = bad_lines(alloc, start.script.lines.as_slice())?;
    Ok(Run {
        output: Output {
            out: Bytes::from_vec(report.out),
            files,
            events,
            err: report.diag,
        },
        files: report.files,
        full: report.full,
        bad,
        recording: Recording {
            start,
            harts,
            schedule: report.schedule,
        },
    })
}
