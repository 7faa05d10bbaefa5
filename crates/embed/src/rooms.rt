//! The check of a script, with the room that it needs.
ghost use Rattle.std.specs.Prelude.{IfErr, IfOk};
ghost use Rattle.embed.specs.Tells.{IsRoomAnswer, IsTellFault};

use crate::beginning::begin;
use crate::fault::EmbedFault;
use crate::finding::find_of;
use crate::task::Task;
use result_json::room_result;
use std::alloc::Global;
use xvsh_checks::{Findings, RoomFound, find_room, is_fine};
use xvsh_read::Status;

/// What is reported of a script and of its room.
#[derive(Drop)]
pub struct RoomAnswer {
    /// What is found in its lines; they are harmless where they have room, too.
    pub findings: Findings,
    /// What is known of its room.
    pub found: RoomFound,
    /// The object of JSON that has both, and LF.
    pub json: Vec<u8>,
}

/// Checks the script of a task, strictly or not, and returns how much of xv6's tables it needs at most on the task's input and files,
/// whatever the order of its processes, and with which line first it may need more than there is, as `xvsh check --room --json`. Nothing
/// is run.
///
/// `Start` where the run can't begin; `Memory` where memory is refused.
pub fn room_check_of(
    alloc: Global,
    task: &Task<'_>,
    is_strict: bool,
) -> Result<RoomAnswer, EmbedFault>
    ensures told { IfOk result (IsRoomAnswer task.now is_strict) }
    ensures fault { IfErr result (IsTellFault task.now) }
{
    let begun = match begin(alloc, task) {
        Ok(begun) => begun,
        Err(fault) => return Err(EmbedFault::Start(fault)),
    };
    let found = find_room(&begun.script, task.stdin, &begun.files);
    let mut findings = match find_of(alloc, task, is_strict) {
        Ok(findings) => findings,
        Err(fault) => return Err(fault),
    };
    findings.is_harmless = is_fine(findings.is_harmless, &found);
    match room_result(alloc, &findings, &found, Status::by(findings.is_harmless)) {
        Ok(json) => Ok(RoomAnswer {
            findings,
            found,
            json,
        }),
        Err(_) => Err(EmbedFault::Memory),
    }
}
