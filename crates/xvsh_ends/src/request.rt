//! What the program is asked for, and how it ends.
ghost use Rattle.std.specs.Prelude.{◌≡◌, []};
ghost use Rattle.xvsh_read.specs.Writing.{out_text};
ghost use Rattle.xvsh_ends.specs.Ends.{IsDue};
ghost use Rattle.xvsh_ends.specs.Requests.{UnlessPrinted, asked};
ghost use Rattle.xvsh_read.specs.Status.{status_code};

use crate::checks::check_ending;
use crate::drawing::draw_ending;
use crate::ending::Ending;
use crate::explanations::explain_ending;
use crate::explorations::explore_ending;
use crate::filing::filed;
use crate::lining::lined_if;
use crate::plain::plain_ending;
use crate::processes::{replay_ending, run_ending};
use crate::tracing::{scheduled, traced};
use std::alloc::Global;
use std::sync::Wait;
use std::thread::Threads;
use std::time::Clock;
use xvsh_checks::{CheckRequest, ExplainRequest};
use xvsh_draws::DrawRequest;
use xvsh_explores::{ExploreRequest, Watch};
use xvsh_plain::PlainRequest;
use xvsh_read::{Host, Traces};
use xvsh_runs::{ReplayRequest, RunRequest};

/// What the program is asked for: one of its commands.
#[derive(Clone, Copy, Debug)]
pub enum Request<'a> {
    /// `run`.
    Run(RunRequest<'a>),
    /// `replay`.
    Replay(ReplayRequest<'a>),
    /// `plain`.
    Plain(PlainRequest<'a>),
    /// `check`.
    Check(CheckRequest<'a>),
    /// `explain`.
    Explain(ExplainRequest<'a>),
    /// `explore`.
    Explore(ExploreRequest<'a>),
    /// `draw`.
    Draw(DrawRequest<'a>),
}

/// Carries out a request, and returns how the program ends: what it prints, or why it can't. Nothing is written but the files, the
/// schedule and the trace of a run and the schedules of an exploration, where they are requested.
pub fn ending_of<R: Threads + Wait + Clock + Sync, H: Host + Traces + Watch>(
    rt: &R,
    alloc: Global,
    request: &Request<'_>,
    host: &mut H,
) -> Ending
    ensures due { IsDue (H.input host.old) (H.file host.old) (asked request.now) result }
    ensures nothing { UnlessPrinted (asked request.now) (status_code result.status) (out_text result.output ≡ []) }
{
    match request {
        Request::Run(run) => {
            let ending = run_ending(rt, alloc, run, host);
            let ending = lined_if(alloc, ending, run.is_lined);
            let ending = filed(alloc, ending, run.files_to, host);
            let ending = scheduled(alloc, ending, run.schedule_to, host);
            traced(alloc, ending, run.trace, host)
        }
        Request::Replay(replay) => {
            let ending = replay_ending(alloc, replay, host);
            let ending = lined_if(alloc, ending, replay.is_lined);
            let ending = filed(alloc, ending, replay.files_to, host);
            traced(alloc, ending, replay.trace, host)
        }
        Request::Plain(plain) => {
            let ending = plain_ending(alloc, plain, host);
            filed(alloc, ending, plain.files_to, host)
        }
        Request::Check(check) => check_ending(alloc, check, host),
        Request::Explain(explain) => explain_ending(alloc, explain, host),
        Request::Explore(explore) => explore_ending(alloc, explore, host),
        Request::Draw(draw) => draw_ending(alloc, draw, host),
    }
}
