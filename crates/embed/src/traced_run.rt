//! Traces of runs.
ghost use Rattle.std.specs.Prelude.{IfErr, IfOk};
ghost use Rattle.embed.specs.Runs.{IsRunAnswer, IsRunFault};

use crate::fault::EmbedFault;
use crate::running::{RunAnswer, run_of};
use crate::task::Task;
use crate::traces::lines_by;
use hart_run::Order;
use std::alloc::Global;

/// What a finished run leaves, and its trace.
#[derive(Drop)]
pub struct TraceAnswer {
    pub run: RunAnswer,
    /// The lines of the trace, each an object of JSON, as `xvsh run --trace` writes them.
    pub lines: Vec<u8>,
}

/// Runs the script of a task by its processes, as `run_of`, and traces that run, which is made once more for it.
///
/// The faults are those of `run_of`.
pub fn trace_of(
    alloc: Global,
    task: &Task<'_>,
    turns: u64,
    order: Order,
) -> Result<TraceAnswer, EmbedFault>
    ensures ran { IfOk result (λ answer. IsRunAnswer task.now answer.run) }
    ensures fault { IfErr result (IsRunFault task.now turns) }
{
    let run = match run_of(alloc, task, turns, order) {
        Ok(run) => run,
        Err(fault) => return Err(fault),
    };
    match lines_by(alloc, task, run.schedule.as_slice()) {
        Some(lines) => Ok(TraceAnswer { run, lines }),
        None => Err(EmbedFault::Memory),
    }
}
