//! Runs of a script by a schedule that is given.
ghost use Rattle.std.specs.Prelude.{◌≡◌, IfErr, IfOk};
ghost use Rattle.schedule_lines.specs.EventLines.{AreLinesOf};
ghost use Rattle.embed.specs.Runs.{of_replay, IsLineFault, IsReplayAnswer, IsReplayRefusal};

use crate::beginning::begin;
use crate::fault::EmbedFault;
use crate::running::{RunAnswer, answer_of};
use crate::task::Task;
use hart_run::Event;
use hart_run::laws::a_settled_script_has_one_answer;
use kernel_runs::{ReplayFault, replay};
use schedule_lines::{ScheduleFault, read_schedule};
use std::alloc::Global;

/// The events of a schedule's lines.
///
/// `NoEvent` names the first line that is neither an event nor a note; `Memory` where memory is refused.
pub fn schedule_of(alloc: Global, schedule: &[u8]) -> Result<Vec<Event>, EmbedFault>
    ensures lines { IfOk result (λ events. AreLinesOf schedule.now events.items) }
    ensures fault { IfErr result (IsLineFault schedule.now) }
{
    match read_schedule(alloc, schedule) {
        Ok(events) => Ok(events),
        Err(ScheduleFault::NoEvent(line)) => Err(EmbedFault::NoEvent(line)),
        Err(ScheduleFault::Memory) => Err(EmbedFault::Memory),
    }
}

/// Why a schedule gives no answer, by why its events give no report.
pub fn of_replay(fault: ReplayFault) -> EmbedFault
    ensures { result ≡ of_replay fault }
{
    match fault {
        ReplayFault::NotRunnable(number) => EmbedFault::NotRunnable(number),
        ReplayFault::NotRunning(number) => EmbedFault::NotRunning(number),
        ReplayFault::Unfinished => EmbedFault::Unfinished,
        ReplayFault::Memory => EmbedFault::Memory,
    }
}

/// Runs the script of a task by the events of a schedule, on up to eight harts: any schedule, one of a run or one that was made up.
///
/// `NoEvent` where a line is no event; `NotRunnable` or `NotRunning` at the first event that can't take place; `Unfinished` where
/// all take place and the run isn't finished; `Memory` where memory is refused.
pub fn replay_of(alloc: Global, task: &Task<'_>, schedule: &[u8]) -> Result<RunAnswer, EmbedFault>
    ensures ran { IfOk result (IsReplayAnswer task.now schedule.now) }
    ensures fault { IfErr result (IsReplayRefusal task.now schedule.now) }
{
    let begun = match begin(alloc, task) {
        Ok(begun) => begun,
        Err(fault) => return Err(EmbedFault::Start(fault)),
    };
    let events = match schedule_of(alloc, schedule) {
        Ok(events) => events,
        Err(fault) => return Err(fault),
    };
    let report = match replay(
        alloc,
        &begun.script,
        task.stdin,
        &begun.files,
        events.as_slice(),
    ) {
        Ok(report) => report,
        Err(fault) => return Err(of_replay(fault)),
    };
    a_settled_script_has_one_answer(&begun.script, &report);
    match answer_of(alloc, report) {
        Ok(answer) => Ok(answer),
        Err(_) => Err(EmbedFault::Memory),
    }
}
