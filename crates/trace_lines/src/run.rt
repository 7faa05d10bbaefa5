//! The first line and the last.

use crate::fields::full_word;
use crate::files::write_files;
use crate::line::Line;
use kernel_model::{Event, Full};
use mem_files::Files;
use script_load::Profile;
use std::alloc::{AllocError, Global};

/// What a run begins with.
#[derive(Clone, Copy)]
pub struct Head<'a> {
    /// The whole script, as it was read.
    pub script: &'a [u8],
    pub profile: Profile,
    /// How many harts run it, 1 to 8.
    pub harts: u8,
    /// The standard input.
    pub input: &'a [u8],
    pub files: &'a Files<Global>,
}

/// What a run ends with.
#[derive(Clone, Copy)]
pub struct End<'a> {
    pub out: &'a [u8],
    pub diag: &'a [u8],
    pub files: &'a Files<Global>,
    /// What was full in it, if something was.
    pub full: Option<Full>,
    /// Whether every process but init has ended.
    pub is_finished: bool,
    pub schedule: &'a [Event],
    /// How many harts ran it, 1 to 8.
    pub harts: u8,
}

/// Adds the first line of a trace to the text.
pub fn head_line(alloc: Global, head: &Head<'_>, text: Vec<u8>) -> Result<Vec<u8>, AllocError> {
    let mut line = Line::begin(alloc, text)?;
    line.word("kind", "run")?;
    line.word("format", "xvsh-trace")?;
    line.count("version", 1)?;
    line.bytes("script", head.script)?;
    line.word("profile", profile_word(head.profile))?;
    line.count("harts", u64::from(head.harts))?;
    line.count("input", head.input.len() as u64)?;
    write_files(&mut line, head.files)?;
    line.end()
}

/// Adds the last line of a trace to the text.
pub fn end_line(alloc: Global, end: &End<'_>, text: Vec<u8>) -> Result<Vec<u8>, AllocError> {
    let mut line = Line::begin(alloc, text)?;
    line.word("kind", "end")?;
    line.word(
        "outcome",
        if end.is_finished {
            "finished"
        } else {
            "unfinished"
        },
    )?;
    line.count("events", end.schedule.len() as u64)?;
    write_counts(&mut line, end.schedule, end.harts)?;
    line.bytes("out", end.out)?;
    line.bytes("diag", end.diag)?;
    match end.full {
        Some(full) => line.word("full", full_word(full))?,
        None => line.nothing("full")?,
    }
    write_files(&mut line, end.files)?;
    line.end()
}

fn profile_word(profile: Profile) -> &'static str {
    match profile {
        Profile::Xv6 => "xv6",
        Profile::Append => "append",
    }
}

// How many events each hart had.
fn write_counts(line: &mut Line, schedule: &[Event], harts: u8) -> Result<(), AllocError> {
    line.begin_list("by_hart")?;
    for hart in 0..harts {
        let count = schedule
            .iter()
            .filter(|event| is_of_hart(event, hart))
            .count();
        line.raw_count(count as u64)?;
    }
    line.end_list()
}

fn is_of_hart(event: &Event, hart: u8) -> bool {
    match event {
        Event::Dispatch(other, _) => *other == hart,
        Event::Trap(other, _) => *other == hart,
    }
}
