//! The system's standard input and files, as a host.

ghost use Rattle.std.specs.Prelude.{None};

use crate::memory::Budget;
use crate::terminal::{Progress, Step, Terminal};
use crate::ticking::Ticker;
use std::alloc::Global;
use std::fs::{File, create_dir_all, metadata};
use std::io::{self, ErrorKind, Write};
use std::rt::Files;
use std::sync::Wait;
use std::time::Clock;
use xvsh::OWN_INPUT;
use xvsh_explores::Watch;
use xvsh_grades::Grading;
use xvsh_read::{Hints, Host, HostFault, STDIN, Traces, Unwritten, read_all, write};

// Where the trace goes that was begun last.
#[derive(Drop)]
enum Sink<F> {
    Nowhere,
    StandardOutput,
    File(F),
}

/// The system, whose standard input and files are unknown before they are read.
#[derive(Drop)]
pub struct System<'t, R: Files, E> {
    rt: R,
    sink: Sink<R::File>,
    terminal: Terminal<E>,
    progress: Progress,
    // How many states a search keeps at most, if it is known.
    most: Option<usize>,
    // How much memory a search may take.
    budget: Budget,
    // What shows that a run goes on, if anything does.
    ticker: Option<&'t Ticker>,
    // Why the path that was read last can't be read, in a sentence; empty where that isn't known.
    unread: &'static str,
}

// What a terminal is shown before standard input is read from it.
const READING: &str =
    "xvsh: reads standard input from this terminal, until Ctrl-D on a line of its own\n";

// Why a path can't be opened, where a sentence says it.
fn unopened(kind: ErrorKind) -> &'static str {
    match kind {
        ErrorKind::NotFound => "there is no such file",
        ErrorKind::PermissionDenied => "whoever runs this may not read it",
        ErrorKind::NotADirectory => "a part of the path before its last `/` is no directory",
        _ => "",
    }
}

// Whether there is a folder at a path.
fn is_folder(rt: &impl Files, path: &str) -> bool {
    match metadata(rt, path) {
        Ok(found) => found.is_dir(),
        Err(_) => false,
    }
}

impl<'t, R: Files, E: Write> System<'t, R, E> {
    /// The system, of which nothing was read yet.
    pub fn new(rt: R, terminal: Terminal<E>, ticker: Option<&'t Ticker>) -> Self {
        System {
            rt,
            sink: Sink::Nowhere,
            terminal,
            progress: Progress::new(),
            most: None,
            budget: Budget::unbounded(),
            ticker,
            unread: "",
        }
    }

    /// The same, whose searches keep so many states at most, if that is known.
    pub fn with_most(mut self, most: Option<usize>) -> Self {
        self.most = most;
        self
    }

    /// The same, whose searches end where the program takes more memory than this.
    pub fn with_budget(mut self, budget: Budget) -> Self {
        self.budget = budget;
        self
    }

    // Says on a terminal that standard input is read.
    fn report_reading(&mut self) {
        if self.terminal.reads && self.terminal.shows {
            let _ = self.terminal.err.write_all(READING.as_bytes());
        }
    }
}

impl<R: Files + Wait + Clock + Eprint, E: Write> System<'_, R, E> {
    // Something is read now, which may take as long as it takes.
    fn begin_reading(&self) {
        if let Some(ticker) = self.ticker {
            ticker.rests(&self.rt);
        }
    }

    // It was read, and work goes on.
    fn end_reading(&self) {
        if let Some(ticker) = self.ticker {
            ticker.works(&self.rt);
        }
    }
}

impl<R: Input + Files + Wait + Clock + Eprint, E: Write> Host for System<'_, R, E> {
    ghost input = { λ _. None };

    ghost file = { λ _ _. None };

    fn read_input(&mut self, alloc: Global, limit: usize) -> Result<Vec<u8>, HostFault> {
        self.begin_reading();
        self.report_reading();
        let bytes = read_all(alloc, self.rt.reader(), limit);
        self.end_reading();
        bytes
    }

    fn read_path(&mut self, alloc: Global, path: &str, limit: usize) -> Result<Vec<u8>, HostFault> {
        self.begin_reading();
        if path == OWN_INPUT {
            self.report_reading();
        }
        let bytes = match File::open(&self.rt, path) {
            Ok(file) => read_all(alloc, file, limit),
            Err(error) => {
                self.unread = unopened(error.kind());
                Err(HostFault::Unreadable)
            }
        };
        if bytes.is_err() && is_folder(&self.rt, path) {
            self.unread = "it is a directory";
        }
        self.end_reading();
        bytes
    }
}

impl<R: Files + Print, E> Traces for System<'_, R, E> {
    fn make_folder(&mut self, path: &str) -> Result<(), Unwritten> {
        if path.is_empty() {
            return Err(Unwritten);
        }
        match create_dir_all(&self.rt, path) {
            Ok(()) => Ok(()),
            Err(_) => Err(Unwritten),
        }
    }

    fn begin_trace(&mut self, path: &str) -> Result<(), Unwritten> {
        if path == STDIN {
            self.sink = Sink::StandardOutput;
            return Ok(());
        }
        match File::create(&self.rt, path) {
            Ok(file) => {
                self.sink = Sink::File(file);
                Ok(())
            }
            Err(_) => Err(Unwritten),
        }
    }

    fn write_trace(&mut self, bytes: &[u8]) -> Result<(), Unwritten> {
        match &mut self.sink {
            Sink::Nowhere => Err(Unwritten),
            Sink::StandardOutput => write(&mut io::writer(&self.rt), bytes),
            Sink::File(file) => write(file, bytes),
        }
    }
}

impl<R: Files + Clock, E: Write> Watch for System<'_, R, E> {
    ghost stopped = { λ _. Unit {0} };

    fn found(&mut self, count: usize) -> bool {
        self.show_progress(Step {
            count,
            of: self.most,
            what: "states",
            has_pace: true,
        });
        self.budget.allows(&self.rt, count)
    }

    fn ended(&mut self) {
        self.end_progress();
    }
}

impl<R: Input + Files + Wait + Clock + Eprint, E: Write> Grading for System<'_, R, E> {
    fn graded(&mut self, done: usize, of: usize) {
        self.show_progress(Step {
            count: done,
            of: Some(of),
            what: "verdicts",
            has_pace: false,
        });
    }

    fn ended(&mut self) {
        self.end_progress();
    }
}

impl<R: Files, E: Write> Hints for System<'_, R, E> {
    fn hint(&mut self, sentence: &str) {
        let shown = if sentence.is_empty() {
            self.unread
        } else {
            sentence
        };
        if self.terminal.shows && !shown.is_empty() {
            let _ = writeln!(self.terminal.err, "xvsh: {shown}");
        }
    }
}

impl<R: Files + Clock, E: Write> System<'_, R, E> {
    // Shows how far something is, if it is time to.
    fn show_progress(&mut self, step: Step<'_>) {
        if !self.terminal.shows || !self.progress.is_due(step.count) {
            return;
        }
        if let Ok(now) = self.rt.monotonic() {
            self.progress.show(&mut self.terminal.err, step, now);
        }
    }

    /// Takes what is shown from the terminal's line.
    pub fn end_progress(&mut self) {
        self.progress.clear(&mut self.terminal.err);
    }
}
