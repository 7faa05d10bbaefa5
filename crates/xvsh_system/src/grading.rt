//! `grade`: the tests of a suite on scripts.

use crate::colours::has_colours;
use crate::system::System;
use crate::terminal::Terminal;
use crate::usage::report;
use clap::ArgMatches;
use std::io::{self, Write};
use std::rt::{Env, Files};
use std::sync::Wait;
use std::thread;
use std::thread::Threads;
use std::time::Clock;
use xvsh::parsed_words;
use xvsh_grades::{Form, GradeRequest, run_grade};
use xvsh_read::{Console, STDIN};

// The form of the report that the words name.
fn form_of(words: &ArgMatches<'_>) -> Form {
    if words.get_flag("json") {
        Form::Json
    } else if words.get_flag("tap") {
        Form::Tap
    } else if words.get_flag("gradescope") {
        Form::Gradescope
    } else {
        Form::Table
    }
}

// By how many threads scripts are graded: as the words say, or as many as there are processors.
fn threads_of(rt: &impl Threads, words: &ArgMatches<'_>) -> usize {
    if let Some(jobs) = words.get_one::<u16>("jobs") {
        return usize::from(jobs);
    }
    match thread::available_parallelism(rt) {
        Ok(count) => count.get(),
        Err(_) => 1,
    }
}

// The path of the suite.
fn suite_of<'m>(words: &'m ArgMatches<'_>) -> &'m str {
    match words.get_str("suite") {
        Some(path) => path,
        None => STDIN,
    }
}

// The paths of the scripts.
fn scripts_of<'m>(words: &'m ArgMatches<'_>) -> &'m [&'m str] {
    words.get_strs("paths").unwrap_or(&[])
}

// What the words ask for.
fn request_of<'m>(
    words: &'m ArgMatches<'_>,
    threads: usize,
    is_coloured: bool,
) -> GradeRequest<'m> {
    GradeRequest {
        suite: suite_of(words),
        scripts: scripts_of(words),
        form: form_of(words),
        threads,
        states: words.get_one::<u64>("states"),
        is_coloured,
    }
}

// Carries out the words of `grade`, and returns the status: that of `run_grade`.
fn carry_out<R, E, T>(rt: &R, words: &ArgMatches<'_>, err: &mut E, terminal: Terminal<T>) -> u8
where
    R: Env + AllocGlobal + Input + Files + Print + Eprint + Threads + Wait + Clock + Sync,
    E: Write,
    T: Write + Drop,
{
    let is_coloured = has_colours(rt, terminal.colours, terminal.writes);
    let request = request_of(words, threads_of(rt, words), is_coloured);
    let mut console = Console {
        host: System::new(rt, terminal, None),
        out: io::writer(rt),
        err,
    };
    run_grade(rt, rt.alloc(), &request, &mut console)
}

/// Grades what these words ask for, of which the first is `grade`, writes the report to standard output, and returns the status with
/// which the program ends. A fault goes to standard error as one line.
pub fn grades<R, E, T>(rt: &R, words: &[String], err: &mut E, terminal: Terminal<T>) -> u8
where
    R: Env + AllocGlobal + Input + Files + Print + Eprint + Threads + Wait + Clock + Sync,
    E: Write,
    T: Write + Drop,
{
    match parsed_words(rt.alloc(), words) {
        Ok(matches) => match matches.subcommand_matches("grade") {
            Some(words) => carry_out(rt, words, err, terminal),
            None => 2,
        },
        Err(ending) => report(rt, &ending, err),
    }
}
