//! What there is after the events of a schedule.
ghost use Rattle.std.specs.Prelude.{◌≢◌, IfErr, IfOk};
ghost use Rattle.script_load.specs.Line.{lines_of};
ghost use Rattle.run_model.specs.ScriptRun.{script_kernel};
ghost use Rattle.kernel_runs.specs.Refused.{IsReplayFault};
ghost use Rattle.kernel_runs.specs.declared.replaying.ReplayFault.TheVariants.{Unfinished};
ghost use Rattle.embed.specs.Looks.{IsLookAnswer, IsLookRefusal, LedTo};

use crate::beginning::{Begun, begin};
use crate::fault::EmbedFault;
use crate::look_objects::look_object;
use crate::replays::{of_replay, schedule_of};
use crate::task::Task;
use kernel_events::Event;
use kernel_runs::{ReplayFault, replay};
use std::alloc::Global;

/// How a run stands after the events of a schedule.
#[derive(Drop)]
pub struct LookAnswer {
    /// An object of JSON, and LF.
    pub json: Vec<u8>,
    /// Whether the run is finished.
    pub is_finished: bool,
}

// Lets the events happen, and returns whether the run is finished then.
fn carry_out(
    alloc: Global,
    begun: &Begun,
    stdin: &[u8],
    events: &[Event],
) -> Result<bool, ReplayFault>
    ensures led { IfOk result (LedTo (script_kernel begun.now.script.profile (lines_of begun.now.script.lines) stdin.now begun.now.files) events.now) }
    ensures fault { IfErr result (IsReplayFault (script_kernel begun.now.script.profile (lines_of begun.now.script.lines) stdin.now begun.now.files) events.now) }
    ensures finished { IfErr result (λ fault. fault ≢ Unfinished) }
{
    let Err(fault) = replay(alloc, &begun.script, stdin, &begun.files, events) else {
        return Ok(true);
    };
    match fault {
        ReplayFault::Unfinished => Ok(false),
        _ => Err(fault),
    }
}

/// How the run of a task stands after the events of a schedule, which need not be a whole run's: what there is of processes,
/// pipes and files, and what was written, as an object with what `xvsh step --json` answers to `ps`, `pipes`, `files` and `out`.
///
/// `NoEvent` where a line is no event; `NotRunnable` or `NotRunning` at the first event that can't take place; `Memory` where
/// memory is refused.
pub fn look_of(alloc: Global, task: &Task<'_>, schedule: &[u8]) -> Result<LookAnswer, EmbedFault>
    ensures looked { IfOk result (IsLookAnswer task.now schedule.now) }
    ensures fault { IfErr result (IsLookRefusal task.now schedule.now) }
{
    let begun = match begin(alloc, task) {
        Ok(begun) => begun,
        Err(fault) => return Err(EmbedFault::Start(fault)),
    };
    let events = match schedule_of(alloc, schedule) {
        Ok(events) => events,
        Err(fault) => return Err(fault),
    };
    let is_finished = match carry_out(alloc, &begun, task.stdin, events.as_slice()) {
        Ok(is_finished) => is_finished,
        Err(fault) => return Err(of_replay(fault)),
    };
    match look_object(alloc, &begun, task.stdin, events.as_slice()) {
        Ok(json) => Ok(LookAnswer { json, is_finished }),
        Err(_) => Err(EmbedFault::Memory),
    }
}
