//! The explanation of a script on its files and its input.
ghost use Rattle.std.specs.Prelude.{◌⊎◌, List, IfErr, IfOk};
ghost use Rattle.mem_files.specs.Name.{Bytes, Name};
ghost use Rattle.mem_files.specs.Files.{files};
ghost use Rattle.script_load.specs.declared.profile.Profile.{Profile};
ghost use Rattle.script_load.specs.Line.{ScriptLine, lines_of};
ghost use Rattle.script_notes.specs.Noted.{IsNoted};
ghost use Rattle.script_notes.specs.Values.{values_of};
ghost use Rattle.xvsh_plain.specs.Running.{IsMeaningFault};
ghost use Rattle.xvsh_checks.specs.Whys.{AreWhysOf};
ghost use Rattle.embed.specs.Tells.{IsNotesFault, IsReasonsFault, IsWhysAnswer, IsWhysFault};

use crate::beginning::{Begun, begin};
use crate::fault::{EmbedFault, StartFault};
use crate::task::Task;
use result_json::{ExplainValues, explain_result};
use script_notes::{LineNote, notes_of};
use std::alloc::{AllocError, Global};
use xvsh_checks::{NotedWhys, find_whys};
use xvsh_read::{Fault, Status};

/// What is reported of a script on its files and its input.
#[derive(Drop)]
pub struct WhysAnswer {
    /// The notes, the names that no file has, with which line first it may not have room, and why it isn't settled.
    pub noted: NotedWhys,
    /// The object of JSON that has it, and LF.
    pub json: Vec<u8>,
}

// The notes on a script.
fn notes_on(alloc: Global, script: &[u8]) -> Result<Vec<LineNote>, EmbedFault>
    ensures notes { IfOk result (λ notes. IsNoted script.now (values_of notes.items)) }
    ensures fault { IfErr result (IsNotesFault script.now) }
{
    match notes_of(alloc, script) {
        Ok(notes) => Ok(notes),
        Err(fault) => Err(EmbedFault::Start(StartFault::from(fault))),
    }
}

// Why these aren't found.
fn of_whys_fault(fault: Fault<'_>) -> EmbedFault
    ensures { (profile : Profile) (lines : List ScriptLine) (stdin : Bytes) (given : List (Name × Bytes)) → IsMeaningFault profile lines stdin (files given) fault.entry → IsReasonsFault profile lines stdin given result }
{
    match fault {
        Fault::TooLarge => EmbedFault::TooLarge,
        _ => EmbedFault::Memory,
    }
}

// What is found in what was begun, whose script has these bytes.
fn noted_of(alloc: Global, begun: &Begun, task: &Task<'_>) -> Result<NotedWhys, EmbedFault>
    ensures told { IfOk result (AreWhysOf task.now.script.now begun.now.script.profile (lines_of begun.now.script.lines) task.now.stdin.now begun.now.files) }
    ensures fault { IfErr result (λ fault. IsNotesFault task.now.script.now fault ⊎ IsReasonsFault begun.now.script.profile (lines_of begun.now.script.lines) task.now.stdin.now begun.now.files fault) }
{
    let notes = match notes_on(alloc, task.script) {
        Ok(notes) => notes,
        Err(fault) => return Err(fault),
    };
    match find_whys(alloc, notes, &begun.script, task.stdin, &begun.files) {
        Ok(noted) => Ok(noted),
        Err(fault) => Err(of_whys_fault(fault)),
    }
}

// The object of what is reported.
fn object_of(alloc: Global, noted: &NotedWhys) -> Result<Vec<u8>, AllocError> {
    let values = ExplainValues {
        notes: noted.notes.as_slice(),
        missing: noted.missing.as_slice(),
        lack: noted.lack,
        reasons: Some(noted.reasons.as_slice()),
    };
    explain_result(alloc, &values, Status::by(noted.is_fine))
}

/// The notes on the script of a task, the first name of each line that no file has when the line runs, with which line first it may need
/// more processes, open files or descriptors than there are, and each reason why it isn't settled on the task's files and input, as
/// `xvsh explain --why --json`: it is fine where there is none of these. The script is run by its meaning to find that out.
///
/// `Start` where the run can't begin; `TooLarge` where the script's meaning passes a limit; `Memory` where memory is refused.
pub fn whys_of(alloc: Global, task: &Task<'_>) -> Result<WhysAnswer, EmbedFault>
    ensures told { IfOk result (IsWhysAnswer task.now) }
    ensures fault { IfErr result (IsWhysFault task.now) }
{
    let begun = match begin(alloc, task) {
        Ok(begun) => begun,
        Err(fault) => return Err(EmbedFault::Start(fault)),
    };
    let noted = match noted_of(alloc, &begun, task) {
        Ok(noted) => noted,
        Err(fault) => return Err(fault),
    };
    match object_of(alloc, &noted) {
        Ok(json) => Ok(WhysAnswer { noted, json }),
        Err(_) => Err(EmbedFault::Memory),
    }
}
