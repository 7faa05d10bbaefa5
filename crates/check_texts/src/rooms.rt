//! The report of the room that a script needs.
ghost use Rattle.std.specs.Prelude.{◌≡◌, ◌++◌, IfOk, OnOk, string_bytes};
ghost use Rattle.check_texts.specs.Findings.{findings_text};
ghost use Rattle.check_texts.specs.Rooms.{lack_text, part_needs, part_text, place_text, rest_text, room_report, room_text, table_text, with_need};

use crate::findings::text_of_findings;
use room_bounds::{Behind, Lack, Room, Table};
use std::alloc::{AllocError, Global};
use xvsh_checks::{Growth, RoomFindings, RoomFound};

/// Adds a need and what follows it.
pub(crate) fn add_need(
    alloc: Global,
    need: Option<u64>,
    after: &[u8],
    text: &mut Vec<u8>,
) -> Result<(), AllocError>
    ensures { OnOk result (text.new.items ≡ with_need text.old.items need after.now) }
{
    match need {
        Some(need) => {
            let number = format!(in alloc; "{need}")?;
            text.extend_from_slice(number.as_bytes())?;
        }
        None => text.extend_from_slice(b"over 1000000".as_slice())?,
    }
    text.extend_from_slice(after)
}

// What a script needs.
fn room_line(alloc: Global, room: &Room) -> Result<Vec<u8>, AllocError>
    ensures { IfOk result (λ text. text.items ≡ room_text room.now) }
{
    let mut text = Vec::new(alloc);
    text.extend_from_slice(b"room: ".as_slice())?;
    add_need(
        alloc,
        room.processes,
        b" of 64 processes, ".as_slice(),
        &mut text,
    )?;
    add_need(
        alloc,
        room.entries,
        b" of 100 open files, ".as_slice(),
        &mut text,
    )?;
    add_need(
        alloc,
        room.descriptors,
        b" of 16 descriptors, ".as_slice(),
        &mut text,
    )?;
    add_need(alloc, room.files, b" of 199 files, ".as_slice(), &mut text)?;
    add_need(
        alloc,
        room.size,
        b" of 274432 bytes a file\n".as_slice(),
        &mut text,
    )?;
    Ok(text)
}

// What a script with a clash or a `&` needs of processes, open files and descriptors.
fn needs_line(alloc: Global, behind: &Behind) -> Result<Vec<u8>, AllocError>
    ensures { IfOk result (λ text. text.items ≡ part_needs behind.now) }
{
    let mut text = Vec::new(alloc);
    text.extend_from_slice(b"room: ".as_slice())?;
    add_need(
        alloc,
        behind.processes,
        b" of 64 processes, ".as_slice(),
        &mut text,
    )?;
    add_need(
        alloc,
        behind.entries,
        b" of 100 open files, ".as_slice(),
        &mut text,
    )?;
    add_need(
        alloc,
        behind.descriptors,
        b" of 16 descriptors".as_slice(),
        &mut text,
    )?;
    Ok(text)
}

// Adds how many files there may be, and by how much they grow, or that this isn't known.
fn add_rest(alloc: Global, growth: &Option<Growth>, text: &mut Vec<u8>) -> Result<(), AllocError>
    ensures { OnOk result (text.new.items ≡ rest_text text.old.items growth.now) }
{
    match growth {
        Some(growth) => {
            text.extend_from_slice(b", ".as_slice())?;
            add_need(
                alloc,
                growth.files,
                b" of 199 files, and no file grows by more than ".as_slice(),
                text,
            )?;
            add_need(alloc, Some(growth.bytes), b" bytes\n".as_slice(), text)
        }
        None => text.extend_from_slice(
            b"; the rest is not known, since a line has a clash or a &\n".as_slice(),
        ),
    }
}

// What is known of the room of a script with a clash or a `&`.
fn part_line(alloc: Global, behind: &Behind, growth: &Option<Growth>) -> Result<Vec<u8>, AllocError>
    ensures { IfOk result (λ text. text.items ≡ part_text behind.now growth.now) }
{
    let mut text = needs_line(alloc, behind)?;
    add_rest(alloc, growth, &mut text)?;
    Ok(text)
}

/// What is said of a table of which there is too little.
pub(crate) fn table_text(table: Table) -> &'static [u8]
    ensures { result.now ≡ table_text table }
{
    match table {
        Table::Processes => b" processes at once; xv6 has 64\n".as_slice(),
        Table::Entries => b" open files at once; xv6 has 100\n".as_slice(),
        Table::Descriptors => b" descriptors of a process at once; xv6 has 16\n".as_slice(),
        Table::Files => b" files; there is room for 199\n".as_slice(),
        Table::Size => b" bytes in a file; a file of xv6 has at most 274432\n".as_slice(),
    }
}

// With which line.
fn place_text(alloc: Global, line: usize) -> Result<String, AllocError>
    ensures { IfOk result (λ text. string_bytes text ≡ place_text line) }
{
    if line == 0 {
        String::from_str(alloc, "the files that are there need ")
    } else {
        format!(in alloc; "line {line} may need ")
    }
}

// The sentence of what a script may lack.
fn lack_sentence(alloc: Global, lack: &Lack) -> Result<Vec<u8>, AllocError>
    ensures { IfOk result (λ text. text.items ≡ with_need (place_text lack.now.line) lack.now.need (table_text lack.now.table)) }
{
    let mut text = place_text(alloc, lack.line)?.into_bytes();
    add_need(alloc, lack.need, table_text(lack.table), &mut text)?;
    Ok(text)
}

// Adds what a script may lack, if it may.
fn add_lack(alloc: Global, lack: &Option<Lack>, text: &mut Vec<u8>) -> Result<(), AllocError>
    ensures { OnOk result (text.new.items ≡ text.old.items ++ lack_text lack.now) }
{
    if let Some(lack) = lack {
        let sentence = lack_sentence(alloc, lack)?;
        text.extend_from_slice(sentence.as_slice())?;
    }
    Ok(())
}

// What is known of a script's room.
fn room_report(alloc: Global, found: &RoomFound) -> Result<Vec<u8>, AllocError>
    ensures { IfOk result (λ text. text.items ≡ room_report found.now) }
{
    match found {
        RoomFound::Known { room, lack } => {
            let mut text = room_line(alloc, room)?;
            add_lack(alloc, lack, &mut text)?;
            Ok(text)
        }
        RoomFound::Part {
            behind,
            growth,
            lack,
        } => {
            let mut text = part_line(alloc, behind, growth)?;
            add_lack(alloc, lack, &mut text)?;
            Ok(text)
        }
    }
}

/// The report of what was found in a script's lines, and behind it how much of xv6's tables the script needs at most, and with which
/// line first it may need more than there is (own).
///
/// `AllocError` where memory is refused.
pub fn text_of_room(alloc: Global, room: &RoomFindings) -> Result<Vec<u8>, AllocError>
    ensures { IfOk result (λ text. text.items ≡ findings_text room.now.findings.list.items ++ room_report room.now.found) }
{
    let mut text = text_of_findings(alloc, room.findings.list.as_slice())?;
    let report = room_report(alloc, &room.found)?;
    text.extend_from_slice(report.as_slice())?;
    Ok(text)
}
