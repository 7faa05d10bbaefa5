//! Colours on a terminal.

use crate::terminal::Terminal;
use std::env::{self, VarError};
use std::io::{self, Write};
use std::rt::Env;

const GREEN: &str = "\x1b[32m";

const YELLOW: &str = "\x1b[33m";

const RED: &str = "\x1b[31m";

const PLAIN: &str = "\x1b[0m";

/// When there are colours.
#[derive(Clone, Copy, PartialEq, Eq)]
pub enum When {
    /// On a terminal, unless the environment says otherwise.
    Auto,
    Always,
    Never,
}

// What stands before a command that says when there are colours; alone, and with the time in one word.
const COLOUR: &str = "--color";

const COLOUR_IS: &[u8] = b"--color=";

// When there are colours, by these bytes.
fn when_of(word: &[u8]) -> Option<When> {
    if word == b"auto".as_slice() {
        Some(When::Auto)
    } else if word == b"always".as_slice() {
        Some(When::Always)
    } else if word == b"never".as_slice() {
        Some(When::Never)
    } else {
        None
    }
}

/// When there are colours by the words that stand before a command, and how many such words there are: `--color WHEN` or
/// `--color=WHEN`, or none (own; the words are those of GNU's `ls`). `None` where WHEN is missing, or is none of `auto`, `always` and `never`.
pub fn colours_of(words: &[String]) -> Option<(When, usize)> {
    let Some(first) = words.first() else {
        return Some((When::Auto, 0));
    };
    if first.as_str() == COLOUR {
        let when = when_of(words.get(1)?.as_bytes())?;
        return Some((when, 2));
    }
    let bytes = first.as_bytes();
    if !bytes.starts_with(COLOUR_IS) {
        return Some((When::Auto, 0));
    }
    Some((when_of(bytes.get(COLOUR_IS.len()..)?)?, 1))
}

/// Which lines of a text have a colour.
#[derive(Clone, Copy, PartialEq, Eq)]
pub enum Lines {
    /// None has.
    Plain,
    /// Of what stands beside an output: the verdict, and a fault of the program.
    Beside,
    /// Of notes on a script: the marks under its places.
    Notes,
    /// Of what `explore` found: how many outputs there are.
    Outcomes,
}

// Whether the environment has a value of this name that isn't empty. Where it can't be read, it says `unread`.
fn is_set(rt: &(impl Env + AllocGlobal), name: &str, unread: bool) -> bool {
    match env::var(rt, name) {
        Ok(value) => !value.is_empty(),
        Err(VarError::NotPresent) => false,
        Err(_) => unread,
    }
}

// Whether the environment says that the terminal has no colours.
fn is_dumb(rt: &(impl Env + AllocGlobal)) -> bool {
    match env::var(rt, "TERM") {
        Ok(value) => value.as_str() == "dumb",
        Err(_) => false,
    }
}

/// Whether what goes to a terminal, or to something else, has colours, where the words don't say it: to a terminal it has, unless `NO_COLOR` is
/// set and not empty, or `TERM` is `dumb`; to anything else only where `CLICOLOR_FORCE` is set and not empty, and `NO_COLOR` isn't (own; the
/// names are those of no-color.org and bixense.com/clicolors).
pub fn has_colours(rt: &(impl Env + AllocGlobal), when: When, is_terminal: bool) -> bool {
    match when {
        When::Auto => is_coloured(rt, is_terminal),
        When::Always => true,
        When::Never => false,
    }
}

// The same by the environment alone. What can't be read asks for no colours.
fn is_coloured(rt: &(impl Env + AllocGlobal), is_terminal: bool) -> bool {
    if is_set(rt, "NO_COLOR", true) {
        return false;
    }
    is_set(rt, "CLICOLOR_FORCE", false) || is_terminal && !is_dumb(rt)
}

/// Which lines have a colour of what stands beside an output.
pub fn lines_beside<R: Env + AllocGlobal, T>(rt: &R, terminal: &Terminal<T>) -> Lines {
    if has_colours(rt, terminal.colours, terminal.shows) {
        Lines::Beside
    } else {
        Lines::Plain
    }
}

/// Which lines have a colour of the output of the command that these words name. A script's own output has none.
pub fn lines_of_output<R: Env + AllocGlobal, T>(
    rt: &R,
    terminal: &Terminal<T>,
    words: &[String],
) -> Lines {
    let lines = match words.first() {
        Some(name) if name.as_str() == "explain" => Lines::Notes,
        Some(name) if name.as_str() == "explore" => Lines::Outcomes,
        _ => Lines::Plain,
    };
    if lines != Lines::Plain && has_colours(rt, terminal.colours, terminal.writes) {
        lines
    } else {
        Lines::Plain
    }
}

// Where the first line of some bytes ends, before its end; their length where none ends.
fn line_length(bytes: &[u8]) -> usize {
    match bytes.iter().position(|byte| *byte == b'\n') {
        Some(place) => place,
        None => bytes.len(),
    }
}

// Whether a line has marks under places of a script, and nothing else but spaces.
fn is_marks(line: &[u8]) -> bool {
    line.contains(&b'^') && line.iter().all(|byte| *byte == b'^' || *byte == b' ')
}

// The colour of a line beside an output.
fn colour_beside(line: &[u8]) -> Option<&'static str> {
    if line == b"settled".as_slice() {
        Some(GREEN)
    } else if line == b"not settled".as_slice() {
        Some(YELLOW)
    } else if line.starts_with(b"xvsh: ".as_slice()) {
        Some(RED)
    } else {
        None
    }
}

// Whether a line says how many outputs there are.
fn counts_outputs(line: &[u8]) -> bool {
    match line.iter().position(|byte| !byte.is_ascii_digit()) {
        Some(place) => {
            place > 0
                && line
                    .get(place..)
                    .unwrap_or(line)
                    .starts_with(b" output".as_slice())
        }
        None => false,
    }
}

// Whether a line says that every order leaves one and the same.
fn has_one_output(line: &[u8]) -> bool {
    line.starts_with(b"1 output, of every order".as_slice())
        || line.starts_with(b"1 output, every order".as_slice())
}

// The colour of a line of what `explore` found.
fn colour_of_outcomes(line: &[u8]) -> Option<&'static str> {
    if has_one_output(line) {
        Some(GREEN)
    } else if counts_outputs(line) {
        Some(YELLOW)
    } else {
        None
    }
}

impl Lines {
    // The colour of a line.
    fn colour_of(self, line: &[u8]) -> Option<&'static str> {
        match self {
            Lines::Plain => None,
            Lines::Beside => colour_beside(line),
            Lines::Notes if is_marks(line) => Some(YELLOW),
            Lines::Notes => None,
            Lines::Outcomes => colour_of_outcomes(line),
        }
    }
}

/// A writer that gives lines their colours. A line that is written in parts has none.
#[derive(Drop)]
pub struct Coloured<W> {
    pub lines: Lines,
    pub writer: W,
}

impl<W: Write> Write for Coloured<W> {
    fn write(&mut self, buf: &[u8]) -> io::Result<usize> {
        if self.lines == Lines::Plain {
            return self.writer.write(buf);
        }
        let length = line_length(buf);
        let line = buf.get(..length).unwrap_or(buf);
        match self.lines.colour_of(line) {
            Some(colour) => {
                self.writer.write_all(colour.as_bytes())?;
                self.writer.write_all(line)?;
                self.writer.write_all(PLAIN.as_bytes())?;
                Ok(line.len())
            }
            // the line with its end, where it has one
            None => self.writer.write(buf.get(..=length).unwrap_or(buf)),
        }
    }

    fn flush(&mut self) -> io::Result<()> {
        self.writer.flush()
    }
}
