//! What a run of a task begins with.
ghost use Rattle.std.specs.Prelude.{◌≡◌, ◌≤◌, IfOk, IfErr, OnOk, length};
ghost use Rattle.mem_files.specs.Listing.{AreFiles};
ghost use Rattle.script_load.specs.Line.{lines_of};
ghost use Rattle.embed.specs.Profiles.{profile_by};
ghost use Rattle.embed.specs.Starting.{max_input, Starts, IsLengthFault, IsStartFault};

use crate::fault::StartFault;
use crate::putting::put_all;
use crate::task::{Task, profile_by};
use mem_files::Files;
use mem_files::laws::are_files;
use script_load::{Script, load_with};
use std::alloc::Global;

/// The most bytes that a script, and a standard input, may have, as the program's (own).
pub const MAX_INPUT: usize = 1_048_576;

/// The script and the files of a task.
#[derive(Drop)]
pub struct Begun {
    pub script: Script<Global>,
    pub files: Files<Global>,
}

// Tests how long the script and the standard input are.
fn check_lengths(task: &Task<'_>) -> Result<(), StartFault>
    ensures script { OnOk result (length task.now.script.now ≤ max_input) }
    ensures stdin { OnOk result (length task.now.stdin.now ≤ max_input) }
    ensures fault { IfErr result (IsLengthFault task.now) }
{
    if task.script.len() > MAX_INPUT {
        return Err(StartFault::ScriptTooLong);
    }
    if task.stdin.len() > MAX_INPUT {
        return Err(StartFault::InputTooLong);
    }
    Ok(())
}

/// Loads the script of a task, and puts its files.
///
/// The faults come in this order: a script or a standard input that is too long, a script that is refused, and the first file
/// that can't be put; `Memory` where memory is refused.
pub fn begin(alloc: Global, task: &Task<'_>) -> Result<Begun, StartFault>
    ensures starts { IfOk result (λ begun. Starts task.now (lines_of begun.script.lines) begun.files) }
    ensures profile { IfOk result (λ begun. begun.script.profile ≡ profile_by task.now.appends) }
    ensures fault { IfErr result (IsStartFault task.now) }
{
    check_lengths(task)?;
    let script = load_with(alloc, task.script, profile_by(task.appends))?;
    let files = put_all(alloc, task.files)?;
    are_files(&files);
    Ok(Begun { script, files })
}
