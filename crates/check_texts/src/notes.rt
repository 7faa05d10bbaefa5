//! The notes of a script in sentences, and behind them what else is found of it.
ghost use Rattle.std.specs.Prelude.{◌≡◌, ◌++◌, IfOk, OnOk, map, string_bytes};
ghost use Rattle.note_texts.specs.Texts.{written};
ghost use Rattle.missing_names.specs.Texts.{missing_texts, shown};
ghost use Rattle.reason_sentences.specs.Sentences.{reason_text, why_text};
ghost use Rattle.reason_sentences.specs.Ways.{ways_text};
ghost use Rattle.check_texts.specs.Explanations.{lack_noted, noted_place, noted_text, whys_text};

use crate::rooms::{add_need, table_text};
use missing_names::{Missing, text_of_missing};
use note_texts::text_of_notes;
use plain_run::Reason;
use reason_sentences::{ways, why};
use room_bounds::Lack;
use script_notes::LineNote;
use std::alloc::{AllocError, Global};
use xvsh_checks::{Noted, NotedWhys};

// Which line it is.
fn noted_place(alloc: Global, line: usize) -> Result<String, AllocError>
    ensures { IfOk result (λ text. string_bytes text ≡ noted_place line) }
{
    format!(in alloc; "line {line}: with this line the script may need ")
}

// Its sentence.
fn lack_sentence(alloc: Global, lack: &Option<Lack>) -> Result<Vec<u8>, AllocError>
    ensures { IfOk result (λ text. text.items ≡ lack_noted lack.now) }
{
    match lack {
        Some(lack) => {
            let mut text = noted_place(alloc, lack.line)?.into_bytes();
            add_need(alloc, lack.need, table_text(lack.table), &mut text)?;
            Ok(text)
        }
        None => Ok(Vec::new(alloc)),
    }
}

// Adds the sentence of the line with which a script may not have room, if there is one.
fn add_lack_note(alloc: Global, lack: &Option<Lack>, text: &mut Vec<u8>) -> Result<(), AllocError>
    ensures { OnOk result (text.new.items ≡ text.old.items ++ lack_noted lack.now) }
{
    let sentence = lack_sentence(alloc, lack)?;
    text.extend_from_slice(sentence.as_slice())
}

// The notes, and behind them this lack.
fn notes_and_lack(
    alloc: Global,
    notes: &[LineNote],
    lack: &Option<Lack>,
) -> Result<Vec<u8>, AllocError>
    ensures { IfOk result (λ text. text.items ≡ written notes.now ++ lack_noted lack.now) }
{
    let mut text = text_of_notes(alloc, notes)?;
    add_lack_note(alloc, lack, &mut text)?;
    Ok(text)
}

/// The notes on a script, and behind them with which line first it may not have room; where there is neither, that there is nothing to
/// report (own).
///
/// `AllocError` where memory is refused.
pub fn text_of_noted(alloc: Global, noted: &Noted) -> Result<Vec<u8>, AllocError>
    ensures { IfOk result (λ text. text.items ≡ noted_text noted.now) }
{
    let text = notes_and_lack(alloc, noted.notes.as_slice(), &noted.lack)?;
    if text.as_slice().is_empty() {
        Vec::from_slice(alloc, b"nothing to tell\n".as_slice())
    } else {
        Ok(text)
    }
}

// The sentence of a lack, and behind it these reasons or that there is none, and what mends each.
fn lack_and_why(
    alloc: Global,
    lack: &Option<Lack>,
    reasons: &[Reason<Global>],
) -> Result<Vec<u8>, AllocError>
    ensures { IfOk result (λ text. text.items ≡ lack_noted lack.now ++ (why_text (map reason_text reasons.now) ++ ways_text reasons.now)) }
{
    let mut text = Vec::new(alloc);
    add_lack_note(alloc, lack, &mut text)?;
    let whys = why(alloc, reasons)?;
    text.extend_from_slice(whys.as_slice())?;
    let mends = ways(alloc, reasons)?;
    text.extend_from_slice(mends.as_slice())?;
    Ok(text)
}

// The sentences of these names, and behind them that of a lack and these reasons or that there is none.
fn names_and_why(
    alloc: Global,
    missing: &[Missing],
    lack: &Option<Lack>,
    reasons: &[Reason<Global>],
) -> Result<Vec<u8>, AllocError>
    ensures { IfOk result (λ text. text.items ≡ missing_texts (map shown missing.now) ++ (lack_noted lack.now ++ (why_text (map reason_text reasons.now) ++ ways_text reasons.now))) }
{
    let mut text = text_of_missing(alloc, missing)?;
    let more = lack_and_why(alloc, lack, reasons)?;
    text.extend_from_slice(more.as_slice())?;
    Ok(text)
}

/// The notes on a script, behind them the names that no file has, with which line first it may not have room, and each reason why it
/// isn't settled with what mends it, or why it is settled (own).
///
/// `AllocError` where memory is refused.
pub fn text_of_whys(alloc: Global, noted: &NotedWhys) -> Result<Vec<u8>, AllocError>
    ensures { IfOk result (λ text. text.items ≡ whys_text noted.now) }
{
    let mut text = text_of_notes(alloc, noted.notes.as_slice())?;
    let rest = names_and_why(
        alloc,
        noted.missing.as_slice(),
        &noted.lack,
        noted.reasons.as_slice(),
    )?;
    text.extend_from_slice(rest.as_slice())?;
    Ok(text)
}
