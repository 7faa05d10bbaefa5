//! What there is of processes, pipes and files, as one object of JSON.
ghost use Rattle.std.specs.Prelude.{◌≡◌};
ghost use Rattle.script_load.specs.Line.{lines_of};

use crate::beginning::Begun;
use kernel_events::{Event, Kernel};
use sh_machine::{Naming, User};
use std::alloc::{AllocError, Global};
use std::marker::Brand;
use step_answers::{Play, PlayFault, Scene};
use step_commands::Command;
use user_calls::Machine;

// How a run stands: it is finished, some process can take a turn, or none can.
fn standing<M: Machine>(kernel: &Kernel<M, Global>) -> &'static str {
    if kernel.is_finished() {
        "finished"
    } else if kernel.runnable() == 0 {
        "stuck"
    } else {
        "runnable"
    }
}

// The object up to how the run stands.
fn head(alloc: Global, stands: &str) -> Result<Vec<u8>, AllocError> {
    let mut text = Vec::new(alloc);
    let begun = format!(in alloc;
        "{{\"format\":\"xvsh-look\",\"version\":1,\"stands\":\"{stands}\""
    )?;
    text.extend_from_slice(begun.as_bytes())?;
    Ok(text)
}

// Adds a member: the object that a session answers to a command, without its LF.
fn add_answer<M: Machine>(
    play: &mut Play<'_, M>,
    key: &str,
    command: &Command<'_>,
    text: Vec<u8>,
) -> Result<Vec<u8>, PlayFault> {
    let mut text = text;
    text.extend_from_slice(key.as_bytes())?;
    let mut text = play.answer(command, text)?;
    let _ = text.pop();
    Ok(text)
}

// The object of how a session stands.
fn object_of<M: Machine>(alloc: Global, play: &mut Play<'_, M>) -> Result<Vec<u8>, PlayFault> {
    let text = head(alloc, standing(play.kernel()))?;
    let text = add_answer(play, ",\"ps\":", &Command::Ps, text)?;
    let text = add_answer(play, ",\"pipes\":", &Command::Pipes, text)?;
    let text = add_answer(play, ",\"files\":", &Command::Files, text)?;
    let mut text = add_answer(play, ",\"out\":", &Command::Out, text)?;
    text.extend_from_slice(b"}\n".as_slice())?;
    Ok(text)
}

// The same of the script that `N` names.
fn look_named<N: Naming>(
    alloc: Global,
    begun: &Begun,
    stdin: &[u8],
    events: &[Event],
) -> Result<Vec<u8>, PlayFault>
    requires { lines_of begun.now.script.lines ≡ N.script }
{
    let scene = Scene {
        init: User::<Global, N>::init(),
        shell: User::shell(&begun.script),
        script: &begun.script,
        stdin,
        files: &begun.files,
    };
    let mut play = Play::start(alloc, scene, true)?;
    play.take_up(events)?;
    object_of(alloc, &mut play)
}

/// What there is of processes, pipes and files after these events, and what was written: an object with `stands`, `runnable`,
/// `finished` or `stuck`, and with `ps`, `pipes`, `files` and `out`, each the object that `xvsh step --json` answers to this
/// command; and LF.
///
/// `Stopped` at the first call of a process that can't take its turn; `Memory` where memory is refused.
pub fn look_object(
    alloc: Global,
    begun: &Begun,
    stdin: &[u8],
    events: &[Event],
) -> Result<Vec<u8>, PlayFault> {
    look_named::<Brand>(alloc, begun, stdin, events)
}
