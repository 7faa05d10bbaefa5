//! Runs of a script by its processes, on one hart.
ghost use Rattle.std.specs.Prelude.{IfErr, IfOk};
ghost use Rattle.embed.specs.Runs.{IsReportTold, IsRunAnswer, IsRunFault};

use crate::beginning::begin;
use crate::fault::EmbedFault;
use crate::packing::{Packed, pack};
use crate::task::Task;
use hart_run::{Full, Order, Report, RunOneFault, run_in_order};
use schedule_lines::schedule_text;
use sh_lexer::Bytes;
use std::alloc::{AllocError, Global};

/// What a finished run leaves.
#[derive(Drop)]
pub struct RunAnswer {
    /// Its standard output.
    pub out: Vec<u8>,
    /// Its diagnostics.
    pub diag: Vec<u8>,
    /// The files at the end, of which none is marked.
    pub files: Packed,
    /// Its events, a line each, as a schedule that is replayed.
    pub schedule: Vec<u8>,
    /// What was full first, if something was.
    pub full: Option<Full>,
}

/// What is reported of a run.
pub(crate) fn answer_of(alloc: Global, report: Report<Global>) -> Result<RunAnswer, AllocError>
    ensures { IfOk result (IsReportTold report) }
{
    let none: &[Bytes<Global>] = &[];
    let files = pack(alloc, &report.files, none)?;
    let schedule = schedule_text(alloc, report.schedule.as_slice())?;
    Ok(RunAnswer {
        out: report.out,
        diag: report.diag,
        files,
        schedule,
        full: report.full,
    })
}

/// Runs the script of a task by its processes on hart 0, in at most so many turns, each of which is an event, and in this order of
/// its processes.
///
/// `BadTurns` where the turns are none, or more than 1,000,000,000; `Spent` where they are spent before the run is finished, or
/// nothing is Runnable; `Memory` where memory is refused.
pub fn run_of(
    alloc: Global,
    task: &Task<'_>,
    turns: u64,
    order: Order,
) -> Result<RunAnswer, EmbedFault>
    ensures ran { IfOk result (IsRunAnswer task.now) }
    ensures fault { IfErr result (IsRunFault task.now turns) }
{
    let begun = match begin(alloc, task) {
        Ok(begun) => begun,
        Err(fault) => return Err(EmbedFault::Start(fault)),
    };
    let report = match run_in_order(alloc, &begun.script, task.stdin, &begun.files, turns, order) {
        Ok(report) => report,
        Err(RunOneFault::BadTurns) => return Err(EmbedFault::BadTurns),
        Err(RunOneFault::Spent) => return Err(EmbedFault::Spent),
        Err(RunOneFault::Memory) => return Err(EmbedFault::Memory),
    };
    match answer_of(alloc, report) {
        Ok(answer) => Ok(answer),
        Err(_) => Err(EmbedFault::Memory),
    }
}
