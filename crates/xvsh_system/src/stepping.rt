//! `step`: a session in which whoever writes the program's standard input says which process goes on.

use crate::system::System;
use crate::terminal::Terminal;
use crate::usage::report;
use clap::ArgMatches;
use std::alloc::Global;
use std::fs::File;
use std::io::{self, Write};
use std::rt::Files;
use std::sync::Wait;
use std::time::Clock;
use xvsh::parsed_words;
use xvsh_read::{
    Given, Hints, Host, HostFault, NOTHING, STDIN, Source, TEXT_PATH, Unwritten, profile_of,
    read_given, write,
};
use xvsh_steps::{Keep, StepFault, StepRequest, step};

// The system, with the standard input and the script that the words give; a schedule is kept in a file of it.
#[derive(Drop)]
struct Desk<'g, 'h, R, H> {
    rt: &'g R,
    given: Given<'h, H>,
}

impl<R, H: Host> Host for Desk<'_, '_, R, H> {
    ghost use Rattle.std.specs.Prelude.{None};

    ghost input = { λ _. None };

    ghost file = { λ _ _. None };

    fn read_input(&mut self, alloc: Global, limit: usize) -> Result<Vec<u8>, HostFault> {
        self.given.read_input(alloc, limit)
    }

    fn read_path(&mut self, alloc: Global, path: &str, limit: usize) -> Result<Vec<u8>, HostFault> {
        self.given.read_path(alloc, path, limit)
    }
}

impl<R: Files, H> Keep for Desk<'_, '_, R, H> {
    fn keep(&mut self, path: &str, bytes: &[u8]) -> Result<(), Unwritten> {
        if path == STDIN {
            return Err(Unwritten);
        }
        match File::create(self.rt, path) {
            Ok(mut file) => write(&mut file, bytes),
            Err(_) => Err(Unwritten),
        }
    }
}

// The path of the script: that of the words' own script with `-c`.
fn script_of<'m>(words: &'m ArgMatches<'_>) -> &'m str {
    if words.get_flag("text") {
        TEXT_PATH
    } else {
        words.get_str("script").unwrap_or(STDIN)
    }
}

// The script that is among the words, if it is.
fn text_of<'m>(words: &'m ArgMatches<'_>) -> Option<&'m str> {
    if words.get_flag("text") {
        words.get_str("script")
    } else {
        None
    }
}

// The session that the words ask for.
fn request_of<'m>(words: &'m ArgMatches<'_>, is_terminal: bool) -> StepRequest<'m> {
    StepRequest {
        source: Source {
            profile: profile_of(words.get_flag("append")),
            script: script_of(words),
            files: words.get_strs("paths").unwrap_or(&[]),
        },
        schedule: words.get_str("schedule"),
        is_json: words.get_flag("json"),
        is_terminal,
    }
}

// Holds the session that the words ask for, with a host that reads what they name.
fn hold<'m, R, H>(
    rt: &R,
    words: &'m ArgMatches<'_>,
    host: &mut H,
    is_terminal: bool,
) -> Result<(), StepFault<'m>>
where
    R: AllocGlobal + Input + Files + Print,
    H: Host,
{
    let alloc = rt.alloc();
    let input = words.get_str("input").unwrap_or(NOTHING);
    let input = match read_given(alloc, host, Some(input)) {
        Ok(input) => input,
        Err(fault) => return Err(StepFault::Common(fault)),
    };
    let mut desk = Desk {
        rt,
        given: Given {
            host,
            input,
            text: text_of(words),
        },
    };
    let request = request_of(words, is_terminal);
    step(alloc, &request, &mut desk, rt.reader(), &mut io::writer(rt))
}

// Whether the script's input or the schedule would be read from where the commands come.
fn shares_input(words: &ArgMatches<'_>) -> bool {
    let is_own = |word: Option<&str>| match word {
        Some(path) => path == STDIN,
        None => false,
    };
    is_own(words.get_str("input")) || is_own(words.get_str("schedule"))
}

const SHARED: &str =
    "xvsh: the script's input and the schedule can't be standard input, from which the commands come";

// Carries out the words of `step`, and returns the status.
fn carry_out<R, E, T>(rt: &R, words: &ArgMatches<'_>, err: &mut E, terminal: Terminal<T>) -> u8
where
    R: AllocGlobal + Input + Files + Print + Eprint + Wait + Clock,
    E: Write,
    T: Write + Drop,
{
    if shares_input(words) {
        let _ = writeln!(err, "{SHARED}");
        return 2;
    }
    let is_terminal = terminal.reads && terminal.writes;
    let mut host = System::new(rt, terminal, None);
    match hold(rt, words, &mut host, is_terminal) {
        Ok(()) => 0,
        Err(fault) => {
            let _ = writeln!(err, "xvsh: {fault}");
            host.hint("");
            fault.status().code()
        }
    }
}

/// Holds the session that these words ask for, of which the first is `step`, with the program's standard input and output, and returns
/// the status with which the program ends. A fault goes to standard error as one line.
pub fn steps<R, E, T>(rt: &R, words: &[String], err: &mut E, terminal: Terminal<T>) -> u8
where
    R: AllocGlobal + Input + Files + Print + Eprint + Wait + Clock,
    E: Write,
    T: Write + Drop,
{
    match parsed_words(rt.alloc(), words) {
        Ok(matches) => match matches.subcommand_matches("step") {
            Some(words) => carry_out(rt, words, err, terminal),
            None => 2,
        },
        Err(ending) => report(rt, &ending, err),
    }
}
