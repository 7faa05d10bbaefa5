//! Traces, and looks into runs.
ghost use Rattle.xvsh_c.specs.LookCalls.{LookCall, TellsLook, TellsTrace, TraceCall};

use crate::answer::{Answer, put_fault};
use crate::handing::{given_out, table_out};
use crate::runs::full_number;
use embed::{EmbedFault, LookAnswer, Task, TraceAnswer, look_of, order_by, trace_of};
use std::alloc::Global;

// Puts what a run leaves into an answer, with its trace for its events.
fn put_trace(answered: TraceAnswer, answer: &mut Answer)
    ensures { TellsTrace answer.new answered }
{
    answer.clear();
    let TraceAnswer { run, lines } = answered;
    answer.full = full_number(run.full);
    answer.sizes = table_out(run.files.sizes);
    answer.block = given_out(run.files.block);
    answer.events = given_out(lines);
    answer.diag = given_out(run.diag);
    answer.out = given_out(run.out);
}

/// `xvsh_trace_call`: runs a script as `xvsh_run_call`, and traces the run.
#[unsafe(no_mangle)]
pub extern "C" fn xvsh_trace_call(
    alloc: Global,
    task: &Task<'_>,
    turns: u64,
    order: u32,
    number: u64,
    answer: &mut Answer,
)
    ensures { TraceCall task.now turns order number answer.new }
{
    let Some(order) = order_by(order, number) else {
        put_fault(EmbedFault::BadOrder, answer);
        return;
    };
    match trace_of(alloc, task, turns, order) {
        Ok(answered) => put_trace(answered, answer),
        Err(fault) => put_fault(fault, answer),
    }
}

// Puts how a run stands into an answer.
fn put_look(answered: LookAnswer, answer: &mut Answer)
    ensures { TellsLook answer.new answered }
{
    answer.clear();
    answer.fine = answered.is_finished as u32;
    answer.json = given_out(answered.json);
}

/// `xvsh_look_call`: how the run of a script stands after the lines of a schedule.
#[unsafe(no_mangle)]
pub extern "C" fn xvsh_look_call(
    alloc: Global,
    task: &Task<'_>,
    schedule: &[u8],
    answer: &mut Answer,
)
    ensures { LookCall task.now schedule.now answer.new }
{
    match look_of(alloc, task, schedule) {
        Ok(answered) => put_look(answered, answer),
        Err(fault) => put_fault(fault, answer),
    }
}
