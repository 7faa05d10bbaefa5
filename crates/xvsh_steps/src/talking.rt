//! Lines in, answers out.

use crate::fault::StepFault;
use crate::lines::{Got, LineReader, MOST_BYTES};
use crate::request::Keep;
use std::alloc::{AllocError, Global};
use std::io::{Read, Write};
use std::str;
use step_answers::Play;
use step_commands::{Command, command_of};
use user_calls::Machine;
use xvsh_read::{Unwritten, write};

// How many lines of processes a terminal is shown.
const SHOWN_LINES: usize = 23;

// What a terminal shows before each command.
const PROMPT: &[u8] = b"> ";

// What a terminal shows first.
const GREETING: &[u8] =
    b"a number is a turn of that process, `help` lists the commands, and an empty line takes the last turns again\n";

// Who asks: where the lines come from, where the answers go, whether that is a terminal, which is shown more, and the last line that took
// turns, or took them back.
#[derive(Drop)]
pub(crate) struct Asker<'l, 'o, R: Drop, W> {
    pub(crate) lines: &'l mut LineReader<R>,
    pub(crate) out: &'o mut W,
    pub(crate) shows: bool,
    pub(crate) again: Vec<u8>,
}

// Writes the text, and sees that whoever reads has it.
fn say<W: Write>(out: &mut W, text: &[u8]) -> Result<(), Unwritten> {
    if text.is_empty() {
        return Ok(());
    }
    write(out, text)?;
    match out.flush() {
        Ok(()) => Ok(()),
        Err(_) => Err(Unwritten),
    }
}

// Keeps the schedule in the file at the path, and reports that it is there, or that it isn't.
fn save<'a, M: Machine, K: Keep>(
    alloc: Global,
    play: &mut Play<'_, M>,
    keep: &mut K,
    path: &[u8],
    text: Vec<u8>,
) -> Result<Vec<u8>, StepFault<'a>> {
    let schedule = play.schedule()?;
    let kept = match str::from_utf8(path) {
        Ok(path) => keep.keep(path, schedule.as_slice()),
        Err(_) => Err(Unwritten),
    };
    match kept {
        Ok(()) => Ok(play.answer(&Command::Save(path), text)?),
        Err(_) => {
            let shown = str::from_utf8(path).unwrap_or("that file");
            let sentence = format!(in alloc; "cannot write {shown}")?;
            Ok(play.add_fault(sentence.as_str(), text)?)
        }
    }
}

// Whether a command takes turns, or takes them back.
fn is_turning(command: &Command<'_>) -> bool {
    matches!(
        command,
        Command::Turn(_) | Command::Go(_) | Command::Back(_) | Command::Until(_)
    )
}

// Adds the answer to a line. A terminal is shown the processes after turns.
fn answer_line<'a, M: Machine, K: Keep>(
    alloc: Global,
    play: &mut Play<'_, M>,
    keep: &mut K,
    line: &[u8],
    shows: bool,
) -> Result<Vec<u8>, StepFault<'a>> {
    let text = Vec::new(alloc);
    match command_of(line) {
        Ok(Command::Save(path)) => save(alloc, play, keep, path, text),
        Ok(command) => {
            let text = play.answer(&command, text)?;
            if shows && is_turning(&command) {
                return Ok(play.add_view(SHOWN_LINES, text)?);
            }
            Ok(text)
        }
        Err(mistake) => Ok(play.add_mistake(&mistake, text)?),
    }
}

// That a line is too long.
fn too_long<'a, M: Machine>(alloc: Global, play: &Play<'_, M>) -> Result<Vec<u8>, StepFault<'a>> {
    let sentence = format!(in alloc; "a command has at most {MOST_BYTES} bytes")?;
    Ok(play.add_fault(sentence.as_str(), Vec::new(alloc))?)
}

// What a terminal is shown before the first command.
fn greet<'a, M: Machine, W: Write>(
    alloc: Global,
    play: &Play<'_, M>,
    out: &mut W,
) -> Result<(), StepFault<'a>> {
    let text = play.add_view(SHOWN_LINES, Vec::new(alloc))?;
    say(out, GREETING)?;
    say(out, text.as_slice())?;
    say(out, PROMPT)?;
    Ok(())
}

// Puts the last line that took turns in the place of an empty one, on a terminal, and keeps one that takes turns.
fn repeat<R: Read + Drop, W: Write>(
    asker: &mut Asker<'_, '_, R, W>,
    line: &mut Vec<u8>,
) -> Result<(), AllocError> {
    match command_of(line.as_slice()) {
        Ok(Command::Nothing) if asker.shows => {
            line.clear();
            line.extend_from_slice(asker.again.as_slice())
        }
        Ok(command) if is_turning(&command) => {
            asker.again.clear();
            asker.again.extend_from_slice(line.as_slice())
        }
        _ => Ok(()),
    }
}

// Whether a line asks to end.
fn is_quit(line: &[u8]) -> bool {
    matches!(command_of(line), Ok(Command::Quit))
}

// Reads a line and answers it; and returns whether another one may follow.
fn answer_next<'a, M: Machine, K: Keep, R: Read + Drop, W: Write>(
    alloc: Global,
    play: &mut Play<'_, M>,
    keep: &mut K,
    asker: &mut Asker<'_, '_, R, W>,
    line: &mut Vec<u8>,
) -> Result<bool, StepFault<'a>> {
    let got = asker.lines.next_line(line)?;
    repeat(asker, line)?;
    let text = match got {
        Got::End => return Ok(false),
        Got::Unreadable => return Err(StepFault::Unreadable),
        Got::TooLong => too_long(alloc, play)?,
        Got::Line => answer_line(alloc, play, keep, line.as_slice(), asker.shows)?,
    };
    say(asker.out, text.as_slice())?;
    if is_quit(line.as_slice()) {
        return Ok(false);
    }
    if asker.shows {
        say(asker.out, PROMPT)?;
    }
    Ok(true)
}

// Answers each line until one asks to end, or there is none. A terminal is shown a prompt.
pub(crate) fn talk<'a, M: Machine, K: Keep, R: Read + Drop, W: Write>(
    alloc: Global,
    play: &mut Play<'_, M>,
    keep: &mut K,
    asker: &mut Asker<'_, '_, R, W>,
) -> Result<(), StepFault<'a>> {
    if asker.shows {
        greet(alloc, play, asker.out)?;
    }
    let mut line = Vec::new(alloc);
    for _ in 0..u64::MAX {
        if !answer_next(alloc, play, keep, asker, &mut line)? {
            return Ok(());
        }
    }
    Ok(())
}
