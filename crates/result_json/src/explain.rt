//! The result of an explanation.

use crate::check::write_lack;
use crate::head::begin_result;
use crate::reasons::write_reasons;
use missing_names::Missing;
use note_texts::sentence;
use plain_run::Reason;
use room_bounds::Lack;
use script_notes::{LineNote, NoteKind, Span};
use std::alloc::{AllocError, Global};
use trace_lines::Line;
use xvsh_read::Status;

// The name of a kind of note.
fn kind_word(kind: NoteKind) -> &'static str {
    match kind {
        NoteKind::ByteOrderMark => "ByteOrderMark",
        NoteKind::CarriageReturn => "CarriageReturn",
        NoteKind::NoComment => "NoComment",
        NoteKind::NoQuote => "NoQuote",
        NoteKind::NoBackQuote => "NoBackQuote",
        NoteKind::NoOr => "NoOr",
        NoteKind::NoAnd => "NoAnd",
        NoteKind::NoMessagePipe => "NoMessagePipe",
        NoteKind::NoCommand => "NoCommand",
        NoteKind::LastBar => "LastBar",
        NoteKind::NoHereText => "NoHereText",
        NoteKind::NoHereWord => "NoHereWord",
        NoteKind::NoNumber => "NoNumber",
        NoteKind::NoVariable => "NoVariable",
        NoteKind::NoSubstitution => "NoSubstitution",
        NoteKind::NoPattern => "NoPattern",
        NoteKind::NoHome => "NoHome",
        NoteKind::NoBraces => "NoBraces",
        NoteKind::NoOption => "NoOption",
        NoteKind::HeadOption => "HeadOption",
        NoteKind::TeeOption => "TeeOption",
        NoteKind::GrepOption => "GrepOption",
        NoteKind::EchoOption => "EchoOption",
        NoteKind::NoProgram => "NoProgram",
        NoteKind::NoFileName => "NoFileName",
        NoteKind::Background => "Background",
        NoteKind::WritesOver => "WritesOver",
        NoteKind::InputUnread => "InputUnread",
        NoteKind::OutputEmptied => "OutputEmptied",
        NoteKind::OutputUnwritten => "OutputUnwritten",
        NoteKind::NoDirectories => "NoDirectories",
        NoteKind::MissingName => "MissingName",
        NoteKind::OpenParen => "OpenParen",
        NoteKind::TenthWord => "TenthWord",
        NoteKind::LateParen => "LateParen",
        NoteKind::StrayParen => "StrayParen",
        NoteKind::LeftOver => "LeftOver",
        NoteKind::PipeClash => "PipeClash",
        NoteKind::RedirectionClash => "RedirectionClash",
        NoteKind::NoListing => "NoListing",
        NoteKind::NoCopy => "NoCopy",
        NoteKind::NoRemoval => "NoRemoval",
        NoteKind::NoFolder => "NoFolder",
        NoteKind::NoFilter => "NoFilter",
        NoteKind::NoProcess => "NoProcess",
        NoteKind::NoPrinter => "NoPrinter",
        NoteKind::NoShellWord => "NoShellWord",
        NoteKind::NoFunction => "NoFunction",
        NoteKind::NoCase => "NoCase",
        NoteKind::NoExport => "NoExport",
        NoteKind::NoAlias => "NoAlias",
    }
}

// The places that a note marks.
fn write_places(object: &mut Line, spans: &[Span]) -> Result<(), AllocError> {
    object.begin_list("places")?;
    for span in spans {
        object.begin_raw_object()?;
        object.count("first", span.first as u64)?;
        object.count("past", span.past as u64)?;
        object.end_object()?;
    }
    object.end_list()
}

// A note of the list.
fn write_note(object: &mut Line, note: &LineNote) -> Result<(), AllocError> {
    object.begin_raw_object()?;
    object.word("kind", kind_word(note.kind))?;
    object.count("line", note.line as u64)?;
    write_places(object, note.spans.as_slice())?;
    object.bytes("sentence", sentence(note.kind))?;
    object.bytes("text", note.text.as_slice())?;
    object.end_object()
}

/// What is reported of a script in an explanation.
#[derive(Clone, Copy)]
pub struct ExplainValues<'a> {
    /// The notes on its lines.
    pub notes: &'a [LineNote],
    /// The names that no file has, where reasons were asked for.
    pub missing: &'a [Missing],
    /// With which line first it may not have room.
    pub lack: Option<Lack>,
    /// Why it isn't settled on its files and its input, where that was asked for.
    pub reasons: Option<&'a [Reason<Global>]>,
}

// The names that no file has, as a list.
fn write_missing(object: &mut Line, missing: &[Missing]) -> Result<(), AllocError> {
    object.begin_list("missing")?;
    for name in missing {
        object.begin_raw_object()?;
        object.count("line", name.line as u64)?;
        object.bytes("name", name.name.as_slice())?;
        object.end_object()?;
    }
    object.end_list()
}

// The word of the status: what comes first.
fn status_word(values: &ExplainValues<'_>) -> &'static str {
    if !values.notes.is_empty() {
        return "notes";
    }
    match values.reasons {
        Some(reasons) if !reasons.is_empty() => "not settled",
        _ if !values.missing.is_empty() => "missing names",
        _ if values.lack.is_some() => "without room",
        _ => "nothing to tell",
    }
}

/// The result of an explanation as one object of JSON, and LF (own): `format`, `version`, `command` `explain`, `status`
/// (`notes` where there is one; else `not settled` where there is a reason, else `missing names` where a name has no file, else
/// `without room` where a line may not have it, else `nothing to tell`), `code`, the status with which
/// the program ends, and `notes`, in the order of the lines: of each its `kind`, its `line`, counted from 1, its `places`, each
/// from the byte `first` up to and without the byte `past` of the line, counted from 0, its `sentence`, and the line's `text`;
/// `lack`, as of a check, where a line may not have room; and `missing`, the names that no file has, each with its `line` and its `name`, `settled` and `reasons`, where these were asked for.
///
/// Bytes are a string where they are UTF-8, else an object whose member `base64` is their base64. `AllocError` where memory for
/// the text is refused.
pub fn explain_result(
    alloc: Global,
    values: &ExplainValues<'_>,
    code: Status,
) -> Result<Vec<u8>, AllocError> {
    let mut object = begin_result(alloc, "explain", status_word(values), code)?;
    object.begin_list("notes")?;
    for note in values.notes {
        write_note(&mut object, note)?;
    }
    object.end_list()?;
    if let Some(lack) = &values.lack {
        write_lack(&mut object, lack)?;
    }
    if let Some(reasons) = values.reasons {
        write_missing(&mut object, values.missing)?;
        object.truth("settled", reasons.is_empty())?;
        write_reasons(&mut object, reasons)?;
    }
    object.end()
}
