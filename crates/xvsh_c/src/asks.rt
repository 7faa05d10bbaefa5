//! Checks and explanations.
ghost use Rattle.std.specs.Prelude.{◌≡◌};
ghost use Rattle.xvsh_c.specs.AskCalls.{CheckCall, ExplainCall, TellsAsked, is_on};

use crate::answer::{Answer, put_fault};
use crate::handing::given_out;
use embed::{AskAnswer, Task, check_of, explain_of};
use std::alloc::Global;

/// Whether a number asks for something: 0 doesn't, any other does.
pub(crate) fn is_on(flag: u32) -> bool
    ensures { result ≡ is_on flag }
{
    flag != 0
}

// Puts what is reported of a script before any run into an answer.
fn put_asked(answered: AskAnswer, answer: &mut Answer)
    ensures { TellsAsked answer.new answered }
{
    answer.clear();
    answer.fine = answered.is_fine as u32;
    answer.json = given_out(answered.json);
}

/// `xvsh_check_call`: checks a script, strictly unless `strict` is 0.
#[unsafe(no_mangle)]
pub extern "C" fn xvsh_check_call(alloc: Global, task: &Task<'_>, strict: u32, answer: &mut Answer)
    ensures { CheckCall task.now strict answer.new }
{
    match check_of(alloc, task, is_on(strict)) {
        Ok(answered) => put_asked(answered, answer),
        Err(fault) => put_fault(fault, answer),
    }
}

/// `xvsh_explain_call`: explains a script.
#[unsafe(no_mangle)]
pub extern "C" fn xvsh_explain_call(alloc: Global, task: &Task<'_>, answer: &mut Answer)
    ensures { ExplainCall task.now answer.new }
{
    match explain_of(alloc, task) {
        Ok(answered) => put_asked(answered, answer),
        Err(fault) => put_fault(fault, answer),
    }
}
