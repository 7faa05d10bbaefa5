//! The check of a script.
ghost use Rattle.std.specs.Prelude.{IfErr, IfOk};
ghost use Rattle.embed.specs.Asks.{IsAskFault, IsCheckAnswer};

use crate::answer::AskAnswer;
use crate::fault::EmbedFault;
use crate::finding::find_of;
use crate::task::Task;
use result_json::check_result;
use std::alloc::Global;
use xvsh_read::Status;

/// Checks the script of a task, strictly or not, as `xvsh check --json`: it is fine where no line holds a `&` or a clash, and
/// strictly where each is a command too. Neither the input nor the files of the task are looked at, and nothing is run.
///
/// `Start` of a script or of a line of it that is too long, or of a line that holds a byte 0; `Memory` where memory is refused.
pub fn check_of(alloc: Global, task: &Task<'_>, is_strict: bool) -> Result<AskAnswer, EmbedFault>
    ensures told { IfOk result (IsCheckAnswer task.now is_strict) }
    ensures fault { IfErr result (IsAskFault task.now.script.now) }
{
    let found = match find_of(alloc, task, is_strict) {
        Ok(found) => found,
        Err(fault) => return Err(fault),
    };
    let is_fine = found.is_harmless;
    match check_result(alloc, &found, Status::by(is_fine)) {
        Ok(json) => Ok(AskAnswer { json, is_fine }),
        Err(_) => Err(EmbedFault::Memory),
    }
}
