//! What a call leaves to its caller.
ghost use Rattle.std.specs.Prelude.{◌≡◌};
ghost use Rattle.xvsh_c.specs.Answers.{IsNothing, TellsFault, number_of, place_of, start_number, start_place};

use embed::{EmbedFault, FileSizes, StartFault};

/// What a call gives: `xvsh_answer`. Its bytes are the caller's from then on.
#[repr(C)]
#[derive(Drop)]
pub struct Answer {
    /// The standard output.
    pub out: &'static [u8],
    /// The diagnostics; where a suite is wrong why.
    pub diag: &'static [u8],
    /// The events of a run, or the lines of a trace.
    pub events: &'static [u8],
    /// An object of JSON.
    pub json: &'static [u8],
    /// The names and the bytes of the files.
    pub block: &'static [u8],
    /// How long each name and each file is.
    pub sizes: &'static [FileSizes],
    /// The line, the file, the event or the test that a fault is about, counted from 1, or 0.
    pub place: u64,
    /// 0, or the number of a fault.
    pub status: u32,
    /// What was full first, from 1 on, or 0.
    pub full: u32,
    /// Of a run by meaning 1 where the script is settled, of a check or an explanation where there is nothing to report, of an
    /// exploration where all outcomes have one output and one set of files, of a look where the run is finished, of a grading where every
    /// test was passed; else 0.
    pub fine: u32,
    /// Of an exploration 1 where every order was tried or is known without; else 0.
    pub whole: u32,
}

impl Answer {
    /// Makes it report nothing.
    pub fn clear(&mut self)
        ensures { IsNothing self.new }
    {
        self.out = &[];
        self.diag = &[];
        self.events = &[];
        self.json = &[];
        self.block = &[];
        self.sizes = &[];
        self.place = 0;
        self.status = 0;
        self.full = 0;
        self.fine = 0;
        self.whole = 0;
    }
}

// The number of a fault that lets nothing begin, and its place.
fn start_parts(fault: StartFault) -> (u32, usize)
    ensures number { result.0 ≡ start_number fault }
    ensures place { result.1 ≡ start_place fault }
{
    match fault {
        StartFault::FileTooLong(file) => (2, file),
        StartFault::LineTooLong(line) => (3, line),
        StartFault::ByteZero(line) => (4, line),
        StartFault::BadName(file) => (5, file),
        StartFault::TooManyFiles(file) => (6, file),
        StartFault::Memory => (8, 0),
        StartFault::TakenName(file) => (15, file),
        StartFault::ScriptTooLong => (64, 0),
        StartFault::InputTooLong => (65, 0),
    }
}

// The number of a fault, and its place.
fn parts(fault: EmbedFault) -> (u32, usize)
    ensures number { result.0 ≡ number_of fault }
    ensures place { result.1 ≡ place_of fault }
{
    match fault {
        EmbedFault::Start(fault) => start_parts(fault),
        EmbedFault::TooLarge => (7, 0),
        EmbedFault::Memory => (8, 0),
        EmbedFault::Spent => (9, 0),
        EmbedFault::NoEvent(line) => (10, line),
        EmbedFault::NotRunnable(event) => (11, event),
        EmbedFault::NotRunning(event) => (12, event),
        EmbedFault::Unfinished => (13, 0),
        EmbedFault::BadTurns => (66, 0),
        EmbedFault::BadOrder => (67, 0),
        EmbedFault::BadStates => (68, 0),
    }
}

/// Puts a fault into an answer, and nothing else.
pub fn put_fault(fault: EmbedFault, answer: &mut Answer)
    ensures { TellsFault answer.new fault }
{
    let (number, place) = parts(fault);
    answer.clear();
    answer.place = place as u64;
    answer.status = number;
}
