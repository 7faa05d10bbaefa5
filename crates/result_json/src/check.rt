//! The result of a check.

use crate::head::begin_result;
use crate::words::clash_word;
use room_bounds::{Behind, Lack, Room, Table};
use sh_tree::ParseFault;
use std::alloc::{AllocError, Global};
use trace_lines::Line;
use xvsh_checks::{Finding, Findings, Growth, RoomFound};
use xvsh_read::Status;

// The number, the name and the place of a fault, as `check` reports them.
fn parts_of(fault: ParseFault) -> (u64, &'static str, usize) {
    match fault {
        ParseFault::MissingFile(at) => (1, "MissingFile", at),
        ParseFault::MissingParen(at) => (2, "MissingParen", at),
        ParseFault::TooManyWords(at) => (3, "TooManyWords", at),
        ParseFault::Unexpected(at) => (4, "Unexpected", at),
        ParseFault::Leftover(at) => (5, "Leftover", at),
        ParseFault::Memory => (6, "Memory", 0),
    }
}

// The fault of a line that is no command: `past` is `first`, since it is at one place.
fn write_fault(object: &mut Line, line: usize, fault: ParseFault) -> Result<(), AllocError> {
    let (number, name, at) = parts_of(fault);
    object.word("kind", "fault")?;
    object.count("line", line as u64)?;
    object.count("first", at as u64)?;
    object.count("past", at as u64)?;
    object.count("number", number)?;
    object.word("fault", name)
}

// What a finding says, by the members of a reason where it is one.
fn write_finding(object: &mut Line, finding: &Finding) -> Result<(), AllocError> {
    match finding {
        Finding::Fault { line, fault } => write_fault(object, *line, *fault),
        Finding::Background { line } => {
            object.word("kind", "background")?;
            object.count("line", *line as u64)
        }
        Finding::Clash { line, kind, name } => {
            object.word("kind", "clash")?;
            object.count("line", *line as u64)?;
            object.word("clash", clash_word(*kind))?;
            object.bytes("name", name.as_slice())
        }
    }
}

// All findings, in order, as the list `findings`.
fn write_findings(object: &mut Line, findings: &[Finding]) -> Result<(), AllocError> {
    object.begin_list("findings")?;
    for finding in findings {
        object.begin_raw_object()?;
        write_finding(object, finding)?;
        object.end_object()?;
    }
    object.end_list()
}

// Whether all is fine, in a word.
fn status_word(findings: &Findings) -> &'static str {
    if findings.is_harmless {
        "harmless"
    } else {
        "not harmless"
    }
}

// The same where the room is listed.
fn room_status(findings: &Findings, found: &RoomFound) -> &'static str {
    match found {
        RoomFound::Known { lack: Some(_), .. } => "without room",
        RoomFound::Known { lack: None, .. } | RoomFound::Part { .. } => status_word(findings),
    }
}

// The object of a check, up to its turns or its room.
fn begin(
    alloc: Global,
    findings: &Findings,
    status: &str,
    code: Status,
) -> Result<Line, AllocError> {
    let mut object = begin_result(alloc, "check", status, code)?;
    write_findings(&mut object, findings.list.as_slice())?;
    Ok(object)
}

/// The result of a check as one object of JSON, and LF (own): `format`, `version`, `command` `check`, `status` `harmless` or
/// `not harmless`, `code`, the status with which the program ends, and `findings`: of each its `kind`, `fault`, `background` or
/// `clash`, and its `line`, counted from 1; of a fault `first` and `past`, its place in bytes from 0, its `number` and its
/// `fault`, a name; of a clash its kind, `clash`, and the `name` of the file.
///
/// Bytes are a string where they are UTF-8, else an object whose member `base64` is their base64. `AllocError` where memory for
/// the text is refused.
pub fn check_result(
    alloc: Global,
    findings: &Findings,
    code: Status,
) -> Result<Vec<u8>, AllocError> {
    let object = begin(alloc, findings, status_word(findings), code)?;
    object.end()
}

/// The same of a check that counts turns (own): beside it `turns`, in how many turns the script runs to its end, or `null` where
/// these are more than 1,000,000,000.
///
/// `AllocError` where memory for the text is refused.
pub fn counted_result(
    alloc: Global,
    findings: &Findings,
    turns: Option<u64>,
    code: Status,
) -> Result<Vec<u8>, AllocError> {
    let mut object = begin(alloc, findings, status_word(findings), code)?;
    match turns {
        Some(turns) => object.count("turns", turns)?,
        None => object.nothing("turns")?,
    }
    object.end()
}

// The name of a table.
fn table_word(table: Table) -> &'static str {
    match table {
        Table::Processes => "processes",
        Table::Entries => "open_files",
        Table::Descriptors => "descriptors",
        Table::Files => "files",
        Table::Size => "size",
    }
}

// A number, or `null` where it is more than is counted.
fn write_need(object: &mut Line, key: &str, need: Option<u64>) -> Result<(), AllocError> {
    match need {
        Some(need) => object.count(key, need),
        None => object.nothing(key),
    }
}

// What a script needs of a table, and how much there is.
fn write_table(object: &mut Line, table: Table, need: Option<u64>) -> Result<(), AllocError> {
    object.begin_object(table_word(table))?;
    write_need(object, "need", need)?;
    object.count("most", table.most())?;
    object.end_object()
}

// What a script needs of each table.
fn write_room(object: &mut Line, room: &Room) -> Result<(), AllocError> {
    object.begin_object("room")?;
    write_table(object, Table::Processes, room.processes)?;
    write_table(object, Table::Entries, room.entries)?;
    write_table(object, Table::Descriptors, room.descriptors)?;
    write_table(object, Table::Files, room.files)?;
    write_table(object, Table::Size, room.size)?;
    object.end_object()
}

// How many files there may be, and by how many bytes each that is written grows at most.
fn write_growth(object: &mut Line, growth: &Growth) -> Result<(), AllocError> {
    write_table(object, Table::Files, growth.files)?;
    object.count("growth", growth.bytes)
}

// What a script with a clash or a `&` needs of processes, open files and descriptors, and how its files grow, where that is known; its
// room as a whole is `null`.
fn write_part(
    object: &mut Line,
    behind: &Behind,
    growth: &Option<Growth>,
) -> Result<(), AllocError> {
    object.nothing("room")?;
    object.begin_object("room_part")?;
    write_table(object, Table::Processes, behind.processes)?;
    write_table(object, Table::Entries, behind.entries)?;
    write_table(object, Table::Descriptors, behind.descriptors)?;
    if let Some(growth) = growth {
        write_growth(object, growth)?;
    }
    object.end_object()
}

// With which line first it may need too much, if with any.
fn write_lack_if(object: &mut Line, lack: &Option<Lack>) -> Result<(), AllocError> {
    match lack {
        Some(lack) => write_lack(object, lack),
        None => Ok(()),
    }
}

/// With which line first it may need too much, and of what; `line` is left out where no line does.
pub(crate) fn write_lack(object: &mut Line, lack: &Lack) -> Result<(), AllocError> {
    object.begin_object("lack")?;
    if lack.line > 0 {
        object.count("line", lack.line as u64)?;
    }
    object.word("table", table_word(lack.table))?;
    write_need(object, "need", lack.need)?;
    object.count("most", lack.table.most())?;
    object.end_object()
}

/// The same of a check that lists the room that the script needs (own): beside it `room`, which has a member of each of `processes`,
/// `open_files`, `descriptors`, `files` and `size`: how much of it the script may `need` at most, `null` where that is more than
/// 1,000,000, and how much there is at `most`; and where it may not have room `lack`, with the `line`, the `table`, the `need` up to
/// that line and the `most`; `status` is then `without room`. Where a line has a clash or a `&`, `room` is `null`, and `room_part` has
/// the members `processes`, `open_files` and `descriptors`, and where it is known how files grow `files`, too, and `growth`, by how many
/// bytes each that the script writes grows at most; `status` stays `not harmless`.
///
/// `AllocError` where memory for the text is refused.
pub fn room_result(
    alloc: Global,
    findings: &Findings,
    found: &RoomFound,
    code: Status,
) -> Result<Vec<u8>, AllocError> {
    let mut object = begin(alloc, findings, room_status(findings, found), code)?;
    match found {
        RoomFound::Known { room, lack } => {
            write_room(&mut object, room)?;
            write_lack_if(&mut object, lack)?;
        }
        RoomFound::Part {
            behind,
            growth,
            lack,
        } => {
            write_part(&mut object, behind, growth)?;
            write_lack_if(&mut object, lack)?;
        }
    }
    object.end()
}
