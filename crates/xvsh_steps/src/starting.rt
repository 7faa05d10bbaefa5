//! What a session begins with.

ghost use Rattle.std.specs.Prelude.{◌≡◌};
ghost use Rattle.script_load.specs.Line.{lines_of};

use crate::fault::StepFault;
use crate::lines::LineReader;
use crate::request::{Keep, StepRequest};
use crate::talking::{Asker, talk};
use kernel_events::Event;
use schedule_lines::{ScheduleFault, read_schedule};
use sh_machine::{Naming, User};
use std::alloc::Global;
use std::io::{Read, Write};
use std::marker::Brand;
use step_answers::{Play, PlayFault, Scene};
use user_calls::Machine;
use xvsh_read::{Fault, Host, STDIN, Start, prepare, read};

// The most bytes that a schedule may have, as with `replay`.
const MAX_SCHEDULE: usize = 70_000_000;

// The events of the schedule at the path, if there is one.
fn events_of<'a, H: Host>(
    alloc: Global,
    host: &mut H,
    path: &'a str,
) -> Result<Vec<Event>, StepFault<'a>> {
    let bytes = read(alloc, host, path, MAX_SCHEDULE)?;
    match read_schedule(alloc, bytes.as_slice()) {
        Ok(events) => Ok(events),
        Err(ScheduleFault::NoEvent(line)) => Err(StepFault::NoEvent(path, line)),
        Err(ScheduleFault::Memory) => Err(StepFault::Common(Fault::Memory)),
    }
}

// Takes up the schedule at the path, if there is one.
fn take_up<'a, M: Machine, H: Host>(
    alloc: Global,
    host: &mut H,
    path: Option<&'a str>,
    play: &mut Play<'_, M>,
) -> Result<(), StepFault<'a>> {
    let Some(path) = path else {
        return Ok(());
    };
    let events = events_of(alloc, host, path)?;
    match play.take_up(events.as_slice()) {
        Ok(()) => Ok(()),
        Err(PlayFault::Stopped(number)) => Err(StepFault::Stopped(path, number)),
        Err(PlayFault::Memory) => Err(StepFault::Common(Fault::Memory)),
    }
}

// The session with the script that `N` names.
fn step_named<'a, N: Naming, H: Host + Keep, R: Read + Drop, W: Write>(
    alloc: Global,
    request: &StepRequest<'a>,
    start: &Start,
    host: &mut H,
    asker: &mut Asker<'_, '_, R, W>,
) -> Result<(), StepFault<'a>>
    requires { lines_of start.now.script.lines ≡ N.script }
{
    let scene = Scene {
        init: User::<Global, N>::init(),
        shell: User::shell(&start.script),
        script: &start.script,
        stdin: start.stdin.as_slice(),
        files: &start.files,
    };
    let mut play = Play::start(alloc, scene, request.is_json)?;
    take_up(alloc, host, request.schedule, &mut play)?;
    talk(alloc, &mut play, host, asker)
}

// The session with the script that was read.
fn step_started<'a, H: Host + Keep, R: Read + Drop, W: Write>(
    alloc: Global,
    request: &StepRequest<'a>,
    start: &Start,
    host: &mut H,
    asker: &mut Asker<'_, '_, R, W>,
) -> Result<(), StepFault<'a>> {
    step_named::<Brand, H, R, W>(alloc, request, start, host, asker)
}

/// Reads the script, its files in order, its standard input and the schedule, takes the schedule's turns, and then answers the lines
/// that the reader gives, until one asks to end or there is none (own). A terminal is shown a prompt, and the processes at the beginning
/// and after turns.
///
/// The script's standard input is that of the host, which is another one than the reader.
pub fn step<'a, H: Host + Keep, R: Read + Drop, W: Write>(
    alloc: Global,
    request: &StepRequest<'a>,
    host: &mut H,
    reader: R,
    out: &mut W,
) -> Result<(), StepFault<'a>> {
    if request.source.script == STDIN {
        return Err(StepFault::OwnScript);
    }
    let start = prepare(alloc, host, &request.source, false)?;
    let mut lines = LineReader::new(reader);
    let shows = request.is_terminal && !request.is_json;
    let mut asker = Asker {
        lines: &mut lines,
        out,
        shows,
        again: Vec::new(alloc),
    };
    step_started(alloc, request, &start, host, &mut asker)
}
