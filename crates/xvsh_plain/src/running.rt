//! What `plain` does: it reads a script, its files and its input, and runs it.
ghost use Rattle.std.specs.Prelude.{IfOk, IfErr};
ghost use Rattle.script_load.specs.Line.{lines_of};
ghost use Rattle.xvsh_plain.specs.Dead.{AreBadAt, AreDeadAt};
ghost use Rattle.xvsh_plain.specs.Reasoned.{DidPlain, IsKnownIf};
ghost use Rattle.xvsh_plain.specs.Running.{IsPlainRefusal};

use crate::reasoned::reason_script;
use crate::request::PlainRequest;
use dead_lines::{bad_lines, dead_lines};
use every_order::{Diagnostics, STATES, diagnostics_of};
use plain_run::Reasoned;
use std::alloc::{AllocError, Global};
use xvsh_read::{Fault, Host, Start, prepare};

/// A run by meaning, as values.
#[derive(Drop)]
pub struct PlainRun {
    /// What it leaves, and why its script isn't settled.
    pub reasoned: Reasoned<Global>,
    /// What is known of the diagnostics of the script's runs by processes, where that was requested.
    pub known: Option<Diagnostics>,
    /// The numbers, from 1, of the script's lines that are no command.
    pub bad: Vec<usize>,
    /// Those of the lines that are no command or name no program.
    pub dead: Vec<usize>,
}

// What is known of the diagnostics of what was read, if that is requested.
fn known_of(alloc: Global, start: &Start, is_asked: bool) -> Result<Option<Diagnostics>, AllocError>
    ensures { IfOk result (IsKnownIf is_asked start.now.script.profile (lines_of start.now.script.lines) start.now.stdin.items start.now.files) }
{
    if is_asked {
        let stdin = start.stdin.as_slice();
        let known = diagnostics_of(alloc, &start.script, stdin, &start.files, STATES)?;
        Ok(Some(known))
    } else {
        Ok(None)
    }
}

/// `plain`: reads the script, the files in order, and standard input unless that is the script, runs the script by its meaning, and
/// returns its outcome and why it isn't settled, as values; what is known of its diagnostics, if that is requested; and which of its lines are no
/// command, and which do nothing. Nothing is written.
pub fn run_plain<'a, H: Host>(
    alloc: Global,
    request: &PlainRequest<'a>,
    host: &mut H,
) -> Result<PlainRun, Fault<'a>>
    ensures ran { IfOk result (DidPlain (H.input host.old) (H.file host.old) request.now) }
    ensures bad { IfOk result (λ run. AreBadAt (H.input host.old) (H.file host.old) request.now.source.script.now run.bad.items) }
    ensures dead { IfOk result (λ run. AreDeadAt (H.input host.old) (H.file host.old) request.now.source.script.now run.dead.items) }
    ensures fault { IfErr result (IsPlainRefusal (H.input host.old) (H.file host.old) request.now) }
{
    let start = prepare(alloc, host, &request.source, false)?;
    let stdin = start.stdin.as_slice();
    let reasoned = reason_script(alloc, &start.script, stdin, &start.files)?;
    let known = known_of(alloc, &start, request.finds_diagnostics)?;
    let bad = bad_lines(alloc, start.script.lines.as_slice())?;
    let dead = dead_lines(alloc, start.script.lines.as_slice())?;
    Ok(PlainRun {
        reasoned,
        known,
        bad,
        dead,
    })
}
