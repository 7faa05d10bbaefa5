//! Runs, and the pages and pictures that draw them.
ghost use Rattle.std.specs.Prelude.{IfErr, IfOk};
ghost use Rattle.embed.specs.Pairs.{CanReplay, IsPairFault};
ghost use Rattle.embed.specs.Runs.{IsReplayAnswer, IsRunAnswer, IsRunFault};

use crate::fault::EmbedFault;
use crate::replays::replay_of;
use crate::running::{RunAnswer, run_of};
use crate::task::Task;
use crate::traces::trace_by;
use figure_page::{pair_page, pair_svg, run_page, run_svg};
use figure_strips::Bounds;
use hart_run::Order;
use std::alloc::Global;

// All events that one page draws.
fn all() -> Bounds {
    Bounds {
        from: None,
        to: None,
    }
}

/// As what runs are drawn.
#[derive(Clone, Copy, Debug, PartialEq, Eq)]
pub enum Form {
    /// The page of HTML that `xvsh draw` writes.
    Page,
    /// The picture in SVG that `xvsh draw --svg` writes.
    Picture,
}

// What is drawn of the run of the task by this schedule, which took place before: so only memory can be refused.
fn drawn_by(alloc: Global, task: &Task<'_>, schedule: &[u8], form: Form) -> Option<Vec<u8>> {
    let Some(trace) = trace_by(alloc, task, schedule) else {
        return None;
    };
    let drawn = match form {
        Form::Page => run_page(alloc, &trace, all()),
        Form::Picture => run_svg(alloc, &trace, all()),
    };
    match drawn {
        Ok(text) => Some(text),
        Err(_) => None,
    }
}

// What is drawn of two such runs.
fn both_drawn_by(
    alloc: Global,
    task: &Task<'_>,
    one: &[u8],
    other: &[u8],
    form: Form,
) -> Option<Vec<u8>> {
    let Some(first) = trace_by(alloc, task, one) else {
        return None;
    };
    let Some(second) = trace_by(alloc, task, other) else {
        return None;
    };
    let drawn = match form {
        Form::Page => pair_page(alloc, &first, &second, all()),
        Form::Picture => pair_svg(alloc, &first, &second, all()),
    };
    match drawn {
        Ok(text) => Some(text),
        Err(_) => None,
    }
}

/// What a finished run leaves, and what draws it.
#[derive(Drop)]
pub struct DrawAnswer {
    pub run: RunAnswer,
    /// The page or the picture, as `xvsh draw` writes it of the run's trace, or of the traces of two runs.
    pub page: Vec<u8>,
}

/// Runs the script of a task by its processes, as `run_of`, and draws that run in a form; it is made once more for it.
///
/// The faults are those of `run_of`.
pub fn draw_of(
    alloc: Global,
    task: &Task<'_>,
    turns: u64,
    order: Order,
    form: Form,
) -> Result<DrawAnswer, EmbedFault>
    ensures ran { IfOk result (λ answer. IsRunAnswer task.now answer.run) }
    ensures fault { IfErr result (IsRunFault task.now turns) }
{
    let run = match run_of(alloc, task, turns, order) {
        Ok(run) => run,
        Err(fault) => return Err(fault),
    };
    match drawn_by(alloc, task, run.schedule.as_slice(), form) {
        Some(page) => Ok(DrawAnswer { run, page }),
        None => Err(EmbedFault::Memory),
    }
}

/// Runs the script of a task by the events of two schedules, as `replay_of`, and draws both runs on one page or in one picture: the
/// answer is what the first leaves.
///
/// The faults are those of `replay_of`, of the first schedule before the other.
pub fn draw_two_of(
    alloc: Global,
    task: &Task<'_>,
    one: &[u8],
    other: &[u8],
    form: Form,
) -> Result<DrawAnswer, EmbedFault>
    ensures ran { IfOk result (λ answer. IsReplayAnswer task.now one.now answer.run) }
    ensures both { IfOk result (λ _. CanReplay task.now other.now) }
    ensures fault { IfErr result (IsPairFault task.now one.now other.now) }
{
    let run = match replay_of(alloc, task, one) {
        Ok(run) => run,
        Err(fault) => return Err(fault),
    };
    let _second = match replay_of(alloc, task, other) {
        Ok(second) => second,
        Err(fault) => return Err(fault),
    };
    match both_drawn_by(alloc, task, one, other, form) {
        Some(page) => Ok(DrawAnswer { run, page }),
        None => Err(EmbedFault::Memory),
    }
}
