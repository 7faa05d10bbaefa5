//! The check of a script, with the turns that are enough for it.
ghost use Rattle.std.specs.Prelude.{◌≡◌, IfErr, IfOk};
ghost use Rattle.mem_files.specs.Files.{files};
ghost use Rattle.script_load.specs.Line.{lines_of};
ghost use Rattle.xvsh_checks.specs.Turns.{AreTurnsFound};
ghost use Rattle.embed.specs.Tells.{IsTellFault, IsTurnsAnswer};

use crate::beginning::{Begun, begin};
use crate::fault::EmbedFault;
use crate::finding::find_of;
use crate::task::Task;
use result_json::counted_result;
use std::alloc::Global;
use step_bounds::turns_enough;
use xvsh_checks::Findings;
use xvsh_read::Status;

/// What is reported of a script and of its turns.
#[derive(Drop)]
pub struct TurnsAnswer {
    /// What is found in its lines.
    pub findings: Findings,
    /// In how many turns it runs to its end; nothing where these are more than 1,000,000,000.
    pub turns: Option<u64>,
    /// The object of JSON that has both, and LF.
    pub json: Vec<u8>,
}

// In how many turns the script runs to its end, if these are not too many.
fn turns_of(begun: &Begun, stdin: &[u8]) -> Option<u64>
    ensures { AreTurnsFound (lines_of begun.now.script.lines) stdin.now (files begun.now.files) result }
{
    turns_enough(&begun.script, stdin, &begun.files)
}

/// Checks the script of a task, strictly or not, and returns in how many turns a run by its processes on the task's input and files is
/// finished, whatever their order, as `xvsh check --turns --json`. Nothing is run.
///
/// `Start` where the run can't begin; `Memory` where memory is refused.
pub fn turns_check_of(
    alloc: Global,
    task: &Task<'_>,
    is_strict: bool,
) -> Result<TurnsAnswer, EmbedFault>
    ensures told { IfOk result (IsTurnsAnswer task.now is_strict) }
    ensures fault { IfErr result (IsTellFault task.now) }
{
    let begun = match begin(alloc, task) {
        Ok(begun) => begun,
        Err(fault) => return Err(EmbedFault::Start(fault)),
    };
    let findings = match find_of(alloc, task, is_strict) {
        Ok(findings) => findings,
        Err(fault) => return Err(fault),
    };
    let turns = turns_of(&begun, task.stdin);
    match counted_result(alloc, &findings, turns, Status::by(findings.is_harmless)) {
        Ok(json) => Ok(TurnsAnswer {
            findings,
            turns,
            json,
        }),
        Err(_) => Err(EmbedFault::Memory),
    }
}
