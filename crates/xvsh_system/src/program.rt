//! The program, by the words of its command line.

ghost use Rattle.std.specs.Thread.{IsSync};

use crate::colours::{Coloured, colours_of, lines_beside, lines_of_output};
use crate::grading::grades;
use crate::memory::Budget;
use crate::stepping::steps;
use crate::system::System;
use crate::terminal::Terminal;
use crate::ticking::{Quieting, Ticker};
use std::alloc::Global;
use std::fs::File;
use std::io::{self, ErrorKind, Write};
use std::process::ExitCode;
use std::rt::{Env, Files};
use std::sync::Wait;
use std::thread::Threads;
use std::time::Clock;
use std::{env, thread};
use xvsh::{STATES, drive, parsed_words};
use xvsh_read::Console;

// The words after the program's own name.
fn words_of(rt: &(impl Env + AllocGlobal)) -> io::Result<Vec<String>> {
    Ok(env::args(rt)?.skip(1).collect(rt.alloc())?)
}

// How far a search goes.
#[derive(Clone, Copy)]
struct Reach {
    // How many states it keeps at most, if it is known.
    states: Option<usize>,
    // How many mebibytes the program may take, if the words say it.
    mebibytes: Option<u64>,
}

// How far the search goes that these words ask for, if they do.
fn reach_of(alloc: Global, words: &[String]) -> Option<Reach> {
    match words.first() {
        Some(name) if name.as_str() == "explore" => {}
        _ => return None,
    }
    let matches = parsed_words(alloc, words).ok()?;
    let words = matches.subcommand_matches("explore")?;
    Some(Reach {
        states: usize::try_from(words.get_one::<u64>("states").unwrap_or(STATES)).ok(),
        mebibytes: words.get_one::<u64>("memory"),
    })
}

// The system, whose searches go so far, if these words ask for one.
fn system_of<'t, R, T>(
    rt: &'t R,
    words: &[String],
    terminal: Terminal<T>,
    ticker: Option<&'t Ticker>,
) -> System<'t, &'t R, T>
where
    R: AllocGlobal + Files,
    T: Write + Drop,
{
    let system = System::new(rt, terminal, ticker);
    match reach_of(rt.alloc(), words) {
        Some(reach) => system
            .with_most(reach.states)
            .with_budget(Budget::new(rt, reach.mebibytes)),
        None => system,
    }
}

// Runs a command whose output is written once it is done.
fn run_whole<R, E, T>(
    rt: &R,
    words: Vec<String>,
    err: &mut E,
    terminal: Terminal<T>,
    ticker: Option<&Ticker>,
) -> u8
where
    R: Env + AllocGlobal + Input + Files + Print + Eprint + Threads + Wait + Clock + Sync,
    E: Write,
    T: Write + Drop,
{
    let beside = lines_beside(rt, &terminal);
    let lines = lines_of_output(rt, &terminal, words.as_slice());
    let mut console = Console {
        host: system_of(rt, words.as_slice(), terminal, ticker),
        out: Coloured {
            lines,
            writer: Quieting {
                rt,
                ticker,
                writer: io::writer(rt),
            },
        },
        err: Coloured {
            lines: beside,
            writer: Quieting {
                rt,
                ticker,
                writer: err,
            },
        },
    };
    drive(rt, rt.alloc(), words, &mut console)
}

// The same, while a thread shows on the terminal that it goes on.
fn run_shown<R, E, T>(rt: &R, words: Vec<String>, err: &mut E, terminal: Terminal<T>) -> u8
where
    R: Env + AllocGlobal + Input + Files + Print + Eprint + Threads + Wait + Clock + Sync,
    E: Write,
    T: Write + Drop,
{
    let own = Ticker::new();
    let ticker = &own;
    thread::scope(
        thread::scope_env(),
        rt,
        |scope|
            requires { IsSync R.row }
        {
            let _ = scope.spawn(move || ticker.ticks(rt));
            let status = run_whole(rt, words, err, terminal, Some(ticker));
            ticker.ends(rt);
            status
        },
    )
}

// Whether these words are of a run that is shown to go on.
fn is_shown(words: &[String]) -> bool {
    match words.first() {
        Some(name) if name.as_str() == "run" => {
            !words.iter().any(|word| word.as_str() == "--quiet")
        }
        _ => false,
    }
}

// Runs the command that the words name.
fn run_words<R, E, T>(rt: &R, words: Vec<String>, err: &mut E, terminal: Terminal<T>) -> u8
where
    R: Env + AllocGlobal + Input + Files + Print + Eprint + Threads + Wait + Clock + Sync,
    E: Write,
    T: Write + Drop,
{
    match words.first() {
        Some(name) if name.as_str() == "step" => steps(rt, words.as_slice(), err, terminal),
        Some(name) if name.as_str() == "grade" => grades(rt, words.as_slice(), err, terminal),
        _ if terminal.shows && is_shown(words.as_slice()) => run_shown(rt, words, err, terminal),
        _ => run_whole(rt, words, err, terminal, None),
    }
}

/// Runs the program on the words, the input and the files of the system, with this as its standard error, and gives the status
/// with which it ends. `terminal` is shown what the program waits for, and how far it is, where there is one. Before a command `--color WHEN`
/// may stand, which says when there are colours; a WHEN that is none is a misuse.
pub fn run<R, E, T>(rt: &R, err: &mut E, terminal: Terminal<T>) -> io::Result<ExitCode>
where
    R: Env + AllocGlobal + Input + Files + Print + Eprint + Threads + Wait + Clock + Sync,
    E: Write,
    T: Write + Drop,
{
    // Where a standard descriptor is closed, the next file that is opened takes its number, and would get what is meant for it. So a
    // folder takes it, as long as the program runs: that can be neither read nor written.
    let _input = File::open(rt, "/");
    let _output = File::open(rt, "/");
    let _error = File::open(rt, "/");
    let words = match words_of(rt) {
        Ok(words) => words,
        Err(error) if error.kind() == ErrorKind::InvalidData => {
            writeln!(err, "xvsh: a word of the command line is not text in UTF-8")?;
            return Ok(ExitCode::from(2));
        }
        Err(_) => {
            writeln!(err, "xvsh: no memory")?;
            return Ok(ExitCode::from(4));
        }
    };
    let Some((colours, count)) = colours_of(words.as_slice()) else {
        writeln!(err, "xvsh: --color takes auto, always or never")?;
        return Ok(ExitCode::from(2));
    };
    let terminal = Terminal {
        colours,
        ..terminal
    };
    let words = words.into_iter().skip(count).collect(rt.alloc());
    match words {
        Ok(words) => Ok(ExitCode::from(run_words(rt, words, err, terminal))),
        Err(_) => {
            writeln!(err, "xvsh: no memory")?;
            Ok(ExitCode::from(4))
        }
    }
}
