//! Runs by meaning.
ghost use Rattle.xvsh_c.specs.PlainCalls.{PlainCall, TellsPlain};

use crate::answer::{Answer, put_fault};
use crate::handing::{given_out, table_out};
use embed::{PlainAnswer, Task, plain_of};
use std::alloc::Global;

// Puts what a script gives into an answer.
fn put_plain(answered: PlainAnswer, answer: &mut Answer)
    ensures { TellsPlain answer.new answered }
{
    answer.clear();
    answer.fine = answered.is_settled as u32;
    answer.sizes = table_out(answered.files.sizes);
    answer.block = given_out(answered.files.block);
    answer.out = given_out(answered.out);
}

/// `xvsh_plain_call`: runs a script by its meaning.
#[unsafe(no_mangle)]
pub extern "C" fn xvsh_plain_call(alloc: Global, task: &Task<'_>, answer: &mut Answer)
    ensures { PlainCall task.now answer.new }
{
    match plain_of(alloc, task) {
        Ok(answered) => put_plain(answered, answer),
        Err(fault) => put_fault(fault, answer),
    }
}
