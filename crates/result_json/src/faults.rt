//! The result of a command that failed.

use crate::head::begin_result;
use std::alloc::{AllocError, Global};
use trace_lines::Line;
use xvsh_read::{Fault, Status};

/// What a fault is about, as far as it says.
#[derive(Clone, Copy, Debug)]
pub struct FaultPlace<'a> {
    /// A line of the script or of the schedule, counted from 1.
    pub line: Option<usize>,
    /// The path of a file.
    pub path: Option<&'a str>,
    /// An event of the schedule, counted from 1.
    pub event: Option<usize>,
    /// A process, by its slot.
    pub pid: Option<usize>,
    /// A hart, counted from 0.
    pub hart: Option<u8>,
}

impl FaultPlace<'_> {
    /// Nothing.
    pub const NOWHERE: FaultPlace<'static> = FaultPlace {
        line: None,
        path: None,
        event: None,
        pid: None,
        hart: None,
    };
}

/// What is reported of a fault.
#[derive(Clone, Copy, Debug)]
pub struct FaultValues<'a> {
    /// Its number, which no other fault has.
    pub number: u64,
    /// Its name.
    pub name: &'static str,
    /// The program's line on standard error, without `xvsh: ` and LF.
    pub text: &'a [u8],
    /// What it is about.
    pub place: FaultPlace<'a>,
}

// The number and the name of a fault: its variant.
fn number_of(fault: Fault<'_>) -> (u64, &'static str) {
    match fault {
        Fault::Unreadable(_) => (1, "Unreadable"),
        Fault::TooLong(_) => (2, "TooLong"),
        Fault::LineTooLong(_) => (3, "LineTooLong"),
        Fault::ByteZero(_) => (4, "ByteZero"),
        Fault::BadName(_) => (5, "BadName"),
        Fault::TooManyFiles => (6, "TooManyFiles"),
        Fault::TooLarge => (7, "TooLarge"),
        Fault::Memory => (8, "Memory"),
        Fault::TakenName(_) => (15, "TakenName"),
    }
}

// The line or the path of a fault that has one.
fn place_of(fault: Fault<'_>) -> FaultPlace<'_> {
    match fault {
        Fault::LineTooLong(line) | Fault::ByteZero(line) => FaultPlace {
            line: Some(line),
            ..FaultPlace::NOWHERE
        },
        Fault::Unreadable(path)
        | Fault::TooLong(path)
        | Fault::BadName(path)
        | Fault::TakenName(path) => FaultPlace {
            path: Some(path),
            ..FaultPlace::NOWHERE
        },
        Fault::TooManyFiles | Fault::TooLarge | Fault::Memory => FaultPlace::NOWHERE,
    }
}

fn write_some(line: &mut Line, key: &str, count: Option<u64>) -> Result<(), AllocError> {
    match count {
        Some(count) => line.count(key, count),
        None => Ok(()),
    }
}

// What a fault is about.
fn write_place(line: &mut Line, place: FaultPlace<'_>) -> Result<(), AllocError> {
    write_some(line, "line", place.line.map(|line| line as u64))?;
    if let Some(path) = place.path {
        line.word("path", path)?;
    }
    write_some(line, "event", place.event.map(|event| event as u64))?;
    write_some(line, "pid", place.pid.map(|pid| pid as u64))?;
    write_some(line, "hart", place.hart.map(|hart| u64::from(hart)))
}

/// The result of a command that failed, as one object of JSON, and LF (own): `format`, `version`, `command`, `status` `fault`,
/// `code`, the status with which the program ends, and `fault`: its `number`, its `name`, its `text`, and those of `line`,
/// `path`, `event`, `pid` and `hart` that it is about.
///
/// `AllocError` where memory for the text is refused.
pub fn fault_result_of(
    alloc: Global,
    command: &str,
    values: &FaultValues<'_>,
    code: Status,
) -> Result<Vec<u8>, AllocError> {
    let mut line = begin_result(alloc, command, "fault", code)?;
    line.begin_object("fault")?;
    line.count("number", values.number)?;
    line.word("name", values.name)?;
    line.bytes("text", values.text)?;
    write_place(&mut line, values.place)?;
    line.end_object()?;
    line.end()
}

/// The same of a fault that any command may meet (own). Its number is its place in `Fault`, counted from 1, its name that of its
/// variant, and its text what it displays.
///
/// `AllocError` where memory for the text is refused.
pub fn fault_result(alloc: Global, command: &str, fault: Fault<'_>) -> Result<Vec<u8>, AllocError> {
    let (number, name) = number_of(fault);
    let text = format!(in alloc; "{fault}")?;
    let values = FaultValues {
        number,
        name,
        text: text.as_bytes(),
        place: place_of(fault),
    };
    fault_result_of(alloc, command, &values, fault.status())
}
