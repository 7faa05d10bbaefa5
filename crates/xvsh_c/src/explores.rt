//! Explorations.
ghost use Rattle.xvsh_c.specs.ExploreCalls.{ExploreCall, TellsExplored};

use crate::answer::{Answer, put_fault};
use crate::asks::is_on;
use crate::handing::given_out;
use embed::{ExploreAnswer, Task, explore_of};
use std::alloc::Global;

// Puts what every order leaves into an answer.
fn put_explored(answered: ExploreAnswer, answer: &mut Answer)
    ensures { TellsExplored answer.new answered }
{
    answer.clear();
    answer.fine = answered.is_single as u32;
    answer.whole = answered.is_whole as u32;
    answer.json = given_out(answered.json);
}

/// `xvsh_explore_call`: explores a script, of at most so many states, a settled one too unless `thorough` is 0.
#[unsafe(no_mangle)]
pub extern "C" fn xvsh_explore_call(
    alloc: Global,
    task: &Task<'_>,
    states: u64,
    thorough: u32,
    answer: &mut Answer,
)
    ensures { ExploreCall task.now states thorough answer.new }
{
    match explore_of(alloc, task, states, is_on(thorough)) {
        Ok(answered) => put_explored(answered, answer),
        Err(fault) => put_fault(fault, answer),
    }
}
