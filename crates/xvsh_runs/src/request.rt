//! What `run` and `replay` are asked for.

use crate::report::Lists;
use xvsh_read::Source;

/// A run of a script by its processes.
#[derive(Clone, Copy, Debug)]
pub struct RunRequest<'a> {
    pub source: Source<'a>,
    /// How many harts run it, 1 to 8.
    pub harts: u8,
    /// The most events that it may take, 1 to 1,000,000,000. If left out, as many as are enough for a script without `&` whose
    /// commands can't meet at a file, but no fewer than 10,000,000; and 10,000,000 of any other script, and where more than
    /// 1,000,000,000 would be enough.
    pub turns: Option<u64>,
    /// The word of the order in which one hart gives the turns; more than one find their own.
    pub order: Option<&'a str>,
    /// What that order is drawn by, where no word names one.
    pub seed: Option<u64>,
    pub lists: Lists,
    /// End with status 3 if the script isn't settled.
    pub is_strict: bool,
    /// Where the run's schedule is written; `-` is standard output, and then nothing else is.
    pub schedule_to: Option<&'a str>,
    /// The folder in which a file is made for each that the run leaves.
    pub files_to: Option<&'a str>,
    /// Where the run's trace is written; `-` is standard output, and then nothing else is.
    pub trace: Option<&'a str>,
    /// Print before each line of the diagnostics which line of the script wrote it.
    pub is_lined: bool,
    /// Print one object of JSON in place of the text.
    pub is_json: bool,
}

/// A run of a script by the events of a schedule.
#[derive(Clone, Copy, Debug)]
pub struct ReplayRequest<'a> {
    /// The path of the schedule; `-` is standard input.
    pub schedule: &'a str,
    pub source: Source<'a>,
    pub lists: Lists,
    /// The folder in which a file is made for each that the run leaves.
    pub files_to: Option<&'a str>,
    /// Where the run's trace is written; `-` is standard output, and then nothing else is.
    pub trace: Option<&'a str>,
    /// Print before each line of the diagnostics which line of the script wrote it.
    pub is_lined: bool,
    /// Print one object of JSON in place of the text.
    pub is_json: bool,
}
