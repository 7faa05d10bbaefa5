//! A script run by its meaning, and why it isn't settled.
ghost use Rattle.std.specs.Prelude.{◌≡◌, IfOk, IfErr};
ghost use Rattle.mem_files.specs.Files.{files};
ghost use Rattle.script_load.specs.Line.{lines_of};
ghost use Rattle.xvsh_plain.specs.Reasoned.{IsReasoned};
ghost use Rattle.xvsh_plain.specs.Running.{IsMeaningFault, of_plain};

use mem_files::Files;
use mem_files::laws::are_files;
use plain_run::{PlainFault, Reasoned, plain_with_reasons};
use script_load::Script;
use std::alloc::Global;
use xvsh_read::Fault;

/// Why a run by its meaning failed.
pub fn of_plain<'a>(fault: PlainFault) -> Fault<'a>
    ensures { result ≡ of_plain fault }
{
    match fault {
        PlainFault::TooLarge => Fault::TooLarge,
        PlainFault::Memory => Fault::Memory,
    }
}

/// Runs a script by its meaning on this standard input and these files, and returns its outcome and why it isn't settled, as
/// values (own). The faults are that it would be too large, and that memory was refused.
pub fn reason_script<'a>(
    alloc: Global,
    script: &Script<Global>,
    stdin: &[u8],
    given: &Files<Global>,
) -> Result<Reasoned<Global>, Fault<'a>>
    ensures gives { IfOk result (IsReasoned script.now.profile (lines_of script.now.lines) stdin.now (files given.now)) }
    ensures run { IfErr result (IsMeaningFault script.now.profile (lines_of script.now.lines) stdin.now (files given.now)) }
{
    match plain_with_reasons(alloc, script, stdin, given) {
        Ok(reasoned) => {
            are_files(&reasoned.plain.files);
            Ok(reasoned)
        }
        Err(fault) => Err(of_plain(fault)),
    }
}
