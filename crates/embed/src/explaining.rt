//! The explanation of a script.
ghost use Rattle.std.specs.Prelude.{IfErr, IfOk};
ghost use Rattle.embed.specs.Asks.{IsAskFault, IsExplainAnswer};

use crate::answer::{AskAnswer, of_fault};
use crate::beginning::MAX_INPUT;
use crate::fault::{EmbedFault, StartFault};
use crate::script_host::ScriptHost;
use crate::task::{Task, profile_by};
use result_json::{ExplainValues, explain_result};
use std::alloc::{AllocError, Global};
use xvsh_checks::{ExplainRequest, Noted, run_note};
use xvsh_read::{STDIN, Source, Status};

// The object of these notes.
fn object_of(alloc: Global, noted: &Noted, code: Status) -> Result<Vec<u8>, AllocError> {
    let values = ExplainValues {
        notes: noted.notes.as_slice(),
        missing: &[],
        lack: noted.lack,
        reasons: None,
    };
    explain_result(alloc, &values, code)
}

/// The notes on the script of a task, and with which line first it may need more processes, open files or descriptors than there are,
/// as `xvsh explain --json`: it is fine where there is neither. Neither the input nor the files of the task are looked at, and
/// nothing is run.
///
/// The faults are those of `check_of`.
pub fn explain_of(alloc: Global, task: &Task<'_>) -> Result<AskAnswer, EmbedFault>
    ensures told { IfOk result (IsExplainAnswer task.now) }
    ensures fault { IfErr result (IsAskFault task.now.script.now) }
{
    if task.script.len() > MAX_INPUT {
        return Err(EmbedFault::Start(StartFault::ScriptTooLong));
    }
    let request = ExplainRequest {
        source: Source {
            profile: profile_by(task.appends),
            script: STDIN,
            files: &[],
        },
        tells_why: false,
        fixes: false,
        is_json: true,
    };
    let mut host = ScriptHost {
        script: task.script,
    };
    let noted = match run_note(alloc, &request, &mut host) {
        Ok(noted) => noted,
        Err(fault) => return Err(of_fault(fault)),
    };
    let is_fine = noted.is_fine;
    match object_of(alloc, &noted, Status::by(is_fine)) {
        Ok(json) => Ok(AskAnswer { json, is_fine }),
        Err(_) => Err(EmbedFault::Memory),
    }
}
