//! Replays: the events of a schedule, one after the other.

ghost use Rattle.std.specs.Prelude.{◌≡◌, IfErr, IfOk, OnOk, []};
ghost use Rattle.script_load.specs.Line.{lines_of};
ghost use Rattle.kernel_events.specs.Reports.{IsReport};
ghost use Rattle.kernel_events.specs.Reports.{IsRunFrom};
ghost use Rattle.run_model.specs.ScriptRun.{script_kernel};
ghost use Rattle.kernel_runs.specs.Refused.{IsFaultFrom, IsReplayFault, StopsAt, refused_at};

use kernel_events::{Event, Kernel, Report, Setting};
use mem_files::Files;
use script_load::Script;
use sh_machine::{Naming, User};
use std::alloc::{AllocError, Allocator};
use std::marker::Brand;
use thiserror::Error;
use user_calls::Machine;

/// Why a schedule gives no report. Events are counted from 1.
#[derive(Clone, Copy, Debug, PartialEq, Eq, Error)]
pub enum ReplayFault {
    /// Fault 1: the event is a dispatch on a hart above 7, on one that runs something, or of a process that isn't
    /// Runnable.
    #[error("event {0} dispatches what can't be dispatched")]
    NotRunnable(usize),
    /// Fault 2: the event is a trap of a process that doesn't run on that hart.
    #[error("event {0} is a call of a process that isn't running there")]
    NotRunning(usize),
    /// Fault 3: all events took place, and the run isn't finished.
    #[error("the run isn't finished")]
    Unfinished,
    /// Fault 4: memory was refused outside of a system call, so no process can be answered `Refused`.
    #[error("no memory")]
    Memory,
}

impl From<AllocError> for ReplayFault {
    ghost use Rattle.kernel_runs.specs.declared.replaying.ReplayFault.TheVariants.{Memory};

    ghost from_gives = { λ _ fault. fault ≡ Memory };

    fn from(_error: AllocError) -> ReplayFault {
        ReplayFault::Memory
    }
}

/// Runs a script by these events and no others, with this standard input and these files, and gives the report of that run.
/// The events may be any: the fault is that of the first which can't take place.
pub fn replay<A: Allocator + Copy, B: Allocator, C: Allocator>(
    alloc: A,
    script: &Script<B>,
    stdin: &[u8],
    files: &Files<C>,
    events: &[Event],
) -> Result<Report<A>, ReplayFault>
    ensures run { IfOk result (IsRunFrom (script_kernel script.now.profile (lines_of script.now.lines) stdin.now files.now)) }
    ensures schedule { IfOk result (λ report. report.schedule ≡ events.now) }
    ensures fault { IfErr result (IsReplayFault (script_kernel script.now.profile (lines_of script.now.lines) stdin.now files.now) events.now) }
{
    let setting = Setting {
        script,
        stdin,
        files,
    };
    replay_named::<Brand, A, B, C>(alloc, &setting, events)
}

// The replay on the script that `N` names.
fn replay_named<N: Naming, A: Allocator + Copy, B: Allocator, C: Allocator>(
    alloc: A,
    setting: &Setting<'_, B, C>,
    events: &[Event],
) -> Result<Report<A>, ReplayFault>
    requires { lines_of setting.now.script.now.lines ≡ N.script }
    ensures run { IfOk result (IsRunFrom (script_kernel setting.now.script.now.profile (lines_of setting.now.script.now.lines) setting.now.stdin.now setting.now.files.now)) }
    ensures schedule { IfOk result (λ report. report.schedule ≡ events.now) }
    ensures fault { IfErr result (IsReplayFault (script_kernel setting.now.script.now.profile (lines_of setting.now.script.now.lines) setting.now.stdin.now setting.now.files.now) events.now) }
{
    let init = User::<B, N>::init();
    let shell = User::shell(setting.script);
    let kernel = Kernel::boot(alloc, init, shell, setting.stdin, setting.files)?;
    replay_kernel(kernel, events)
}

// Carries out the events, and gives the report if the run is finished then.
fn replay_kernel<M: Machine, A: Allocator + Copy>(
    mut kernel: Kernel<M, A>,
    events: &[Event],
) -> Result<Report<A>, ReplayFault>
    requires { kernel.schedule ≡ [] }
    ensures run { IfOk result (IsReport M.call_of M.next_of kernel.boot) }
    ensures schedule { IfOk result (λ report. report.schedule ≡ events.now) }
    ensures fault { IfErr result (IsFaultFrom M.call_of M.next_of kernel.boot events.now) }
{
    let happened = carry_out(&mut kernel, events);
    kernel.replays();
    match happened {
        Err(fault) => Err(fault),
        Ok(()) if !kernel.is_finished() => Err(ReplayFault::Unfinished),
        Ok(()) => Ok(kernel.into_report()),
    }
}

// Carries out the events in order.
fn carry_out<M: Machine, A: Allocator + Copy>(
    kernel: &mut Kernel<M, A>,
    events: &[Event],
) -> Result<(), ReplayFault>
    requires { kernel.old.schedule ≡ [] }
    ensures boot { kernel.new.boot ≡ kernel.old.boot }
    ensures schedule { OnOk result (kernel.new.schedule ≡ events.now) }
    ensures fault { IfErr result (StopsAt kernel.new.now kernel.new.schedule events.now) }
{
    for (place, event) in events.iter().enumerate() {
        if !kernel.happen(*event)? {
            return Err(refused(event, place + 1));
        }
    }
    Ok(())
}

// The fault of an event of this number that can't take place.
fn refused(event: &Event, number: usize) -> ReplayFault
    ensures { result ≡ refused_at event.now number }
{
    match event {
        Event::Dispatch(_, _) => ReplayFault::NotRunnable(number),
        Event::Trap(_, _) => ReplayFault::NotRunning(number),
    }
}
