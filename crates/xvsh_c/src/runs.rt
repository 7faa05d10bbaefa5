//! Runs by processes.
ghost use Rattle.std.specs.Prelude.{◌≡◌};
ghost use Rattle.xvsh_c.specs.RunCalls.{full_number, ReplayCall, RunCall, TellsRun};

use crate::answer::{Answer, put_fault};
use crate::handing::{given_out, table_out};
use embed::{EmbedFault, Full, RunAnswer, Task, order_by, replay_of, run_of};
use std::alloc::Global;

/// What was full, from 1 on, or 0.
pub(crate) fn full_number(full: Option<Full>) -> u32
    ensures { result ≡ full_number full }
{
    match full {
        None => 0,
        Some(Full::Procs) => 1,
        Some(Full::Open) => 2,
        Some(Full::Fds) => 3,
        Some(Full::Files) => 4,
        Some(Full::Size) => 5,
        Some(Full::Memory) => 6,
    }
}

// Puts what a run leaves into an answer.
fn put_run(answered: RunAnswer, answer: &mut Answer)
    ensures { TellsRun answer.new answered }
{
    answer.clear();
    answer.full = full_number(answered.full);
    answer.sizes = table_out(answered.files.sizes);
    answer.block = given_out(answered.files.block);
    answer.events = given_out(answered.schedule);
    answer.diag = given_out(answered.diag);
    answer.out = given_out(answered.out);
}

/// `xvsh_run_call`: runs a script by its processes on one hart, in at most so many turns and in this order.
#[unsafe(no_mangle)]
pub extern "C" fn xvsh_run_call(
    alloc: Global,
    task: &Task<'_>,
    turns: u64,
    order: u32,
    number: u64,
    answer: &mut Answer,
)
    ensures { RunCall task.now turns order number answer.new }
{
    let Some(order) = order_by(order, number) else {
        put_fault(EmbedFault::BadOrder, answer);
        return;
    };
    match run_of(alloc, task, turns, order) {
        Ok(answered) => put_run(answered, answer),
        Err(fault) => put_fault(fault, answer),
    }
}

/// `xvsh_replay_call`: runs a script by the lines of a schedule.
#[unsafe(no_mangle)]
pub extern "C" fn xvsh_replay_call(
    alloc: Global,
    task: &Task<'_>,
    schedule: &[u8],
    answer: &mut Answer,
)
    ensures { ReplayCall task.now schedule.now answer.new }
{
    match replay_of(alloc, task, schedule) {
        Ok(answered) => put_run(answered, answer),
        Err(fault) => put_fault(fault, answer),
    }
}
