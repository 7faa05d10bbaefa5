//! What a check finds in a task's script.
ghost use Rattle.std.specs.Prelude.{IfErr, IfOk};
ghost use Rattle.embed.specs.Asks.{AreFound, IsAskFault};

use crate::answer::of_fault;
use crate::beginning::MAX_INPUT;
use crate::fault::{EmbedFault, StartFault};
use crate::script_host::ScriptHost;
use crate::task::Task;
use std::alloc::Global;
use xvsh_checks::{CheckRequest, Findings, run_find};
use xvsh_read::STDIN;

/// What `xvsh check --json` finds in the lines of the script of a task, strictly or not. Neither the input nor the files of the task are
/// looked at, and nothing is run.
///
/// `Start` of a script or of a line of it that is too long, or of a line that holds a byte 0; `Memory` where memory is refused.
pub(crate) fn find_of(
    alloc: Global,
    task: &Task<'_>,
    is_strict: bool,
) -> Result<Findings, EmbedFault>
    ensures found { IfOk result (AreFound task.now is_strict) }
    ensures fault { IfErr result (IsAskFault task.now.script.now) }
{
    if task.script.len() > MAX_INPUT {
        return Err(EmbedFault::Start(StartFault::ScriptTooLong));
    }
    let request = CheckRequest {
        script: STDIN,
        files: &[],
        counts_turns: false,
        tells_room: false,
        is_strict,
        is_json: true,
    };
    let mut host = ScriptHost {
        script: task.script,
    };
    match run_find(alloc, &request, &mut host) {
        Ok(found) => Ok(found),
        Err(fault) => Err(of_fault(fault)),
    }
}
