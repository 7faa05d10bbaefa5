//! How the program ends: what it prints, with which status, and how that is written.
ghost use Rattle.std.specs.Prelude.{◌≡◌, [], OnErr, OnOk, MatchResult, string_bytes};
ghost use Rattle.std.specs.Io.KnownBytes.{Appends};
ghost use Rattle.xvsh_read.specs.Status.{fault_told, status_of, status_code};
ghost use Rattle.xvsh_read.specs.Writing.{AppendsPart, out_text};
ghost use Rattle.xvsh_runs.specs.Status.{run_fault_told, run_status};
ghost use Rattle.xvsh_ends.specs.Ends.{Tells, TellsOr, Writes, line_text, told_text, untraced_told};

use mem_files::Files;
use sh_lexer::Bytes;
use std::alloc::{AllocError, Global};
use std::io::Write;
use xvsh_read::{Fault, Output, Status, Unwritten, write, write_out};
use xvsh_runs::{ProcessFault, Recording};

/// What the program itself reports on standard error: a text of its own, or one that was made.
#[derive(Drop)]
pub enum Line {
    Fixed(&'static str),
    Made(String),
}

impl Line {
    ghost use Rattle.std.specs.Prelude.{◌≡◌};
    ghost use Rattle.xvsh_ends.specs.Ends.{line_text};

    pub(crate) fn as_bytes(&self) -> &[u8]
        ensures { result.now ≡ line_text self.now }
    {
        match self {
            Line::Fixed(text) => text.as_bytes(),
            Line::Made(text) => text.as_bytes(),
        }
    }
}

/// How the program ends: what it prints, and after its diagnostics a report of its own on standard error, and the status; and
/// what makes the run once more, where it was one by processes; the files that it leaves, where a script ran; and for whoever sits at
/// a terminal what helps, if anything does, and the numbers of the script's lines that are no command, where a text reports a run, and of
/// those and the ones that name no program, where it reports no diagnostics.
#[derive(Drop)]
pub struct Ending {
    pub output: Output,
    pub line: Line,
    pub status: Status,
    pub recording: Option<Recording>,
    pub left: Option<Files<Global>>,
    pub hint: &'static str,
    pub bad: Vec<usize>,
    pub dead: Vec<usize>,
}

/// Nothing.
pub fn no_output(alloc: Global) -> Output
    ensures out { result.out ≡ [] }
    ensures files { result.files.items ≡ [] }
    ensures events { result.events.items ≡ [] }
    ensures err { result.err.items ≡ [] }
{
    Output {
        out: Bytes::from_vec(Vec::new(alloc)),
        files: Vec::new(alloc),
        events: Vec::new(alloc),
        err: Vec::new(alloc),
    }
}

// This report alone, the status, and what helps.
fn report_with(alloc: Global, line: Line, status: Status, hint: &'static str) -> Ending
    ensures { Tells (line_text line) (status_code status) result }
{
    Ending {
        output: no_output(alloc),
        line,
        status,
        recording: None,
        left: None,
        hint,
        bad: Vec::new(alloc),
        dead: Vec::new(alloc),
    }
}

/// This report alone, and the status.
pub fn report(alloc: Global, line: Line, status: Status) -> Ending
    ensures { Tells (line_text line) (status_code status) result }
{
    report_with(alloc, line, status, "")
}

/// The report that memory was refused. It takes none.
pub fn report_no_memory(alloc: Global) -> Ending
    ensures { Tells (fault_told Fault.Memory) 4 result }
{
    report(alloc, Line::Fixed("xvsh: no memory\n"), Status::NoRoom)
}

/// A report that was made, with this status, or that memory was refused for it.
pub fn report_made(alloc: Global, made: Result<String, AllocError>, status: Status) -> Ending
    ensures { MatchResult made (λ text. Tells (string_bytes text) (status_code status) result) (λ _. Tells (fault_told Fault.Memory) 4 result) }
{
    match made {
        Ok(text) => report(alloc, Line::Made(text), status),
        Err(_) => report_no_memory(alloc),
    }
}

// The same, with what helps.
fn report_hinted(
    alloc: Global,
    made: Result<String, AllocError>,
    status: Status,
    hint: &'static str,
) -> Ending
    ensures { MatchResult made (λ text. Tells (string_bytes text) (status_code status) result) (λ _. Tells (fault_told Fault.Memory) 4 result) }
{
    match made {
        Ok(text) => report_with(alloc, Line::Made(text), status, hint),
        Err(_) => report_no_memory(alloc),
    }
}

/// The report of a fault.
pub fn report_fault(alloc: Global, fault: Fault<'_>) -> Ending
    ensures { TellsOr (fault_told fault.entry) (status_of fault.entry) result }
{
    let hint = fault.hint();
    report_hinted(
        alloc,
        format!(in alloc; "xvsh: {fault}\n"),
        fault.status(),
        hint,
    )
}

/// The report of a fault of a run by processes.
pub fn report_run_fault(alloc: Global, fault: ProcessFault<'_>) -> Ending
    ensures { TellsOr (run_fault_told fault.entry) (run_status fault.entry) result }
{
    let hint = fault.hint();
    report_hinted(
        alloc,
        format!(in alloc; "xvsh: {fault}\n"),
        fault.status(),
        hint,
    )
}

/// The report of a trace or a schedule that can't be written at the path.
pub fn report_untraced(alloc: Global, path: &str) -> Ending
    ensures { TellsOr (untraced_told path.now) 1 result }
{
    report_made(
        alloc,
        format!(in alloc; "xvsh: cannot write {path}\n"),
        Status::Failed,
    )
}

// Writes what goes to standard error.
fn write_told<E: Write>(err: &mut E, ending: &Ending) -> Result<(), Unwritten>
    ensures written { OnOk result (Appends (E.contents err.old) (E.contents err.new) (told_text ending.now)) }
    ensures part { OnErr result (AppendsPart (E.contents err.old) (E.contents err.new) (told_text ending.now)) }
{
    write(err, ending.output.err.as_slice())?;
    write(err, ending.line.as_bytes())
}

/// Writes how the program ends, first to standard output and then to standard error, and returns its status; 1 where one of
/// them takes no more, after which nothing more is written.
pub fn write_ending<W: Write, E: Write>(ending: &Ending, out: &mut W, err: &mut E) -> Status
    ensures writes { Writes (out_text ending.now.output) (told_text ending.now) (status_code ending.now.status) (W.contents out.old) (W.contents out.new) (E.contents err.old) (E.contents err.new) (status_code result) }
    ensures nothing { out_text ending.now.output ≡ [] → out.new ≡ out.old }
{
    match write_out(out, &ending.output) {
        Ok(()) => match write_told(err, ending) {
            Ok(()) => ending.status,
            Err(Unwritten) => Status::Failed,
        },
        Err(Unwritten) => Status::Failed,
    }
}

// Why the program ends with another status than its ending has.
const UNWRITTEN: &str = "standard output or standard error takes no more, or is closed";

/// What helps whoever sits at a terminal once an ending was written, and the program ends with this status; empty where nothing
/// does.
pub fn hint_of(ending: &Ending, status: Status) -> &'static str {
    if status == ending.status {
        ending.hint
    } else {
        UNWRITTEN
    }
}
