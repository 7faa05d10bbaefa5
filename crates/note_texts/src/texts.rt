//! Notes as text: of each its sentence, the line, and marks under its places.
ghost use Rattle.std.specs.Prelude.{◌≡◌, ◌++◌, IfOk, OnOk};
ghost use Rattle.script_notes.specs.Values.{value_of};
ghost use Rattle.note_texts.specs.Texts.{head_text, note_text, written};

use crate::marks::{add_marks, add_shown};
use crate::sentences::sentence;
use script_notes::{LineNote, NoteKind};
use std::alloc::{AllocError, Global};

// Adds `line N: SENTENCE` and LF.
fn add_head(
    alloc: Global,
    number: usize,
    kind: NoteKind,
    text: &mut Vec<u8>,
) -> Result<(), AllocError>
    ensures { OnOk result (text.new.items ≡ text.old.items ++ head_text number kind) }
{
    let begin = format!(in alloc; "line {number}: ")?;
    text.extend_from_slice(begin.as_bytes())?;
    text.extend_from_slice(sentence(kind))?;
    text.push(b'\n')?;
    Ok(())
}

// Adds the text of a note: `line N: SENTENCE`, the line, and marks under its places.
fn add_note_text(alloc: Global, note: &LineNote, text: &mut Vec<u8>) -> Result<(), AllocError>
    ensures { OnOk result (text.new.items ≡ text.old.items ++ note_text (value_of note.now)) }
{
    add_head(alloc, note.line, note.kind, text)?;
    text.extend_from_slice(b"  ".as_slice())?;
    add_shown(alloc, note.text.as_slice(), text)?;
    text.extend_from_slice(b"\n  ".as_slice())?;
    add_marks(alloc, note.text.as_slice(), note.spans.as_slice(), text)?;
    text.push(b'\n')?;
    Ok(())
}

/// Notes as text for a student (own). Each is three lines: `line N: SENTENCE`, the line without its carriage returns behind two
/// spaces, and marks `^` under the places that it speaks of, behind two spaces too, with a tab under a tab. Lines are counted
/// from 1. The text is empty where there is no note. `AllocError` where memory for it is refused.
pub fn text_of_notes(alloc: Global, notes: &[LineNote]) -> Result<Vec<u8>, AllocError>
    ensures { IfOk result (λ text. text.items ≡ written notes.now) }
{
    let mut text = Vec::new(alloc);
    let mut rest = notes;
    while let Some((note, after)) = rest.split_first() {
        add_note_text(alloc, note, &mut text)?;
        rest = after;
    }
    Ok(text)
}
