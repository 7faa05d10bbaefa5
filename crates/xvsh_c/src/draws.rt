//! Pages and pictures of runs.
ghost use Rattle.xvsh_c.specs.DrawCalls.{DrawCall, DrawTwoCall, TellsDrawn};

use crate::answer::{Answer, put_fault};
use crate::handing::{given_out, table_out};
use crate::runs::full_number;
use embed::{DrawAnswer, EmbedFault, Form, Task, draw_of, draw_two_of, order_by};
use std::alloc::Global;

// Puts what a run leaves into an answer, with its page or picture for its events.
fn put_drawn(answered: DrawAnswer, answer: &mut Answer)
    ensures { TellsDrawn answer.new answered }
{
    answer.clear();
    let DrawAnswer { run, page } = answered;
    answer.full = full_number(run.full);
    answer.sizes = table_out(run.files.sizes);
    answer.block = given_out(run.files.block);
    answer.events = given_out(page);
    answer.diag = given_out(run.diag);
    answer.out = given_out(run.out);
}

/// `xvsh_draw_call`: runs a script as `xvsh_run_call`, and draws the run.
#[unsafe(no_mangle)]
pub extern "C" fn xvsh_draw_call(
    alloc: Global,
    task: &Task<'_>,
    turns: u64,
    order: u32,
    number: u64,
    answer: &mut Answer,
)
    ensures { DrawCall task.now turns order number answer.new }
{
    let Some(order) = order_by(order, number) else {
        put_fault(EmbedFault::BadOrder, answer);
        return;
    };
    match draw_of(alloc, task, turns, order, Form::Page) {
        Ok(answered) => put_drawn(answered, answer),
        Err(fault) => put_fault(fault, answer),
    }
}

/// `xvsh_draw_two_call`: runs a script by the lines of two schedules, and draws both runs on one page.
#[unsafe(no_mangle)]
pub extern "C" fn xvsh_draw_two_call(
    alloc: Global,
    task: &Task<'_>,
    one: &[u8],
    other: &[u8],
    answer: &mut Answer,
)
    ensures { DrawTwoCall task.now one.now other.now answer.new }
{
    match draw_two_of(alloc, task, one, other, Form::Page) {
        Ok(answered) => put_drawn(answered, answer),
        Err(fault) => put_fault(fault, answer),
    }
}

/// `xvsh_draw_svg_call`: runs a script as `xvsh_run_call`, and draws the run as a picture.
#[unsafe(no_mangle)]
pub extern "C" fn xvsh_draw_svg_call(
    alloc: Global,
    task: &Task<'_>,
    turns: u64,
    order: u32,
    number: u64,
    answer: &mut Answer,
)
    ensures { DrawCall task.now turns order number answer.new }
{
    let Some(order) = order_by(order, number) else {
        put_fault(EmbedFault::BadOrder, answer);
        return;
    };
    match draw_of(alloc, task, turns, order, Form::Picture) {
        Ok(answered) => put_drawn(answered, answer),
        Err(fault) => put_fault(fault, answer),
    }
}

/// `xvsh_draw_two_svg_call`: runs a script by the lines of two schedules, and draws both runs in one picture.
#[unsafe(no_mangle)]
pub extern "C" fn xvsh_draw_two_svg_call(
    alloc: Global,
    task: &Task<'_>,
    one: &[u8],
    other: &[u8],
    answer: &mut Answer,
)
    ensures { DrawTwoCall task.now one.now other.now answer.new }
{
    match draw_two_of(alloc, task, one, other, Form::Picture) {
        Ok(answered) => put_drawn(answered, answer),
        Err(fault) => put_fault(fault, answer),
    }
}
