//! Checks and explanations of a script on its files and its input.
ghost use Rattle.xvsh_c.specs.TellCalls.{RoomCall, TellsObject, TurnsCall, WhysCall};

use crate::answer::{Answer, put_fault};
use crate::asks::is_on;
use crate::handing::given_out;
use embed::{Task, room_check_of, turns_check_of, whys_of};
use std::alloc::Global;

// Puts an object, and whether all is fine, into an answer.
fn put_object(json: Vec<u8>, is_fine: bool, answer: &mut Answer)
    ensures { TellsObject answer.new json.items is_fine }
{
    answer.clear();
    answer.fine = is_fine as u32;
    answer.json = given_out(json);
}

/// `xvsh_check_turns_call`: checks a script, strictly unless `strict` is 0, and reports the turns that are enough for it.
#[unsafe(no_mangle)]
pub extern "C" fn xvsh_check_turns_call(
    alloc: Global,
    task: &Task<'_>,
    strict: u32,
    answer: &mut Answer,
)
    ensures { TurnsCall task.now strict answer.new }
{
    match turns_check_of(alloc, task, is_on(strict)) {
        Ok(answered) => put_object(answered.json, answered.findings.is_harmless, answer),
        Err(fault) => put_fault(fault, answer),
    }
}

/// `xvsh_check_room_call`: checks a script, strictly unless `strict` is 0, and reports the room that it needs.
#[unsafe(no_mangle)]
pub extern "C" fn xvsh_check_room_call(
    alloc: Global,
    task: &Task<'_>,
    strict: u32,
    answer: &mut Answer,
)
    ensures { RoomCall task.now strict answer.new }
{
    match room_check_of(alloc, task, is_on(strict)) {
        Ok(answered) => put_object(answered.json, answered.findings.is_harmless, answer),
        Err(fault) => put_fault(fault, answer),
    }
}

/// `xvsh_explain_why_call`: explains a script on its files and its input.
#[unsafe(no_mangle)]
pub extern "C" fn xvsh_explain_why_call(alloc: Global, task: &Task<'_>, answer: &mut Answer)
    ensures { WhysCall task.now answer.new }
{
    match whys_of(alloc, task) {
        Ok(answered) => put_object(answered.json, answered.noted.is_fine, answer),
        Err(fault) => put_fault(fault, answer),
    }
}
