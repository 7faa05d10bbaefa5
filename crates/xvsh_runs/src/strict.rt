//! What `run --strict` does: it finds out whether the script is settled, and then runs it by its processes.
ghost use Rattle.std.specs.Prelude.{IfOk, IfErr, false};
ghost use Rattle.xvsh_read.specs.Writing.{out_text};
ghost use Rattle.xvsh_runs.specs.Strict.{DidStrict, IsStrictRefusal};
ghost use Rattle.xvsh_runs.specs.Values.{RanJudged};

use crate::fault::ProcessFault;
use crate::ordering::order_of;
use crate::report::Run;
use crate::request::RunRequest;
use crate::running::run_prepared;
use plain_run::Reason;
use sh_tree::Words;
use std::alloc::Global;
use std::sync::Wait;
use std::thread::Threads;
use std::time::Clock;
use xvsh_plain::verdict_of;
use xvsh_read::{Host, prepare};

/// A strict run.
#[derive(Drop)]
pub struct StrictRun {
    /// The run.
    pub run: Run,
    /// Whether its script is settled.
    pub is_settled: bool,
    /// The names of the files that are soft by the script's meaning.
    pub soft: Words<Global>,
    /// Why it isn't settled; nothing where it is.
    pub reasons: Vec<Reason<Global>>,
}

/// `run --strict`: reads the script, the files in order, and standard input unless that is the script, finds out whether the
/// script is settled on them, and runs it by its processes as `run` does, settled or not. Returns what `run` returns, whether the
/// script is settled, and why it isn't (own). Nothing is written.
pub fn run_strict<'a, R: Threads + Wait + Clock + Sync, H: Host>(
    rt: &R,
    alloc: Global,
    request: &RunRequest<'a>,
    host: &mut H,
) -> Result<StrictRun, ProcessFault<'a>>
    ensures ran { IfOk result (λ strict. DidStrict (H.input host.old) (H.file host.old) request.now strict.run.full strict.is_settled strict.reasons.items (out_text strict.run.output) strict.run.output.err.items) }
    ensures values { IfOk result (λ strict. RanJudged (H.input host.old) (H.file host.old) false request.now.source.profile request.now.source.script.now request.now.source.files.now strict.run strict.soft strict.reasons.items) }
    ensures fault { IfErr result (IsStrictRefusal (H.input host.old) (H.file host.old) request.now) }
{
    let order = order_of(request)?;
    let start = prepare(alloc, host, &request.source, false)?;
    let verdict = verdict_of(alloc, &start)?;
    let run = run_prepared(rt, alloc, start, request, order)?;
    Ok(StrictRun {
        run,
        is_settled: verdict.is_settled,
        soft: verdict.soft,
        reasons: verdict.reasons,
    })
}
