//! The notes of a script.

ghost use Rattle.std.specs.Prelude.{◌≡◌, ◌++◌, [], List, IfErr, IfOk, IfNone, IfSome, OnOk};
ghost use Rattle.prog_parts.specs.Lines.{IsFirstLine};
ghost use Rattle.script_load.specs.Line.{line_of};
ghost use Rattle.script_load.specs.Script.{HasLoadFault, IsLineOf};
ghost use Rattle.script_notes.specs.Notes.{Note};
ghost use Rattle.script_notes.specs.Noted.{HasNotes, IsNoted};
ghost use Rattle.script_notes.specs.Values.{notes_on, so_far, values_of};

use crate::commands::add_command_notes;
use crate::habits::add_token_notes;
use crate::letters::add_byte_notes;
use crate::line_note::LineNote;
use crate::note_list::NoteList;
use crate::row::Row;
use crate::whole::{add_cd_note, add_clash_note, add_fault_note};
use prog_parts::split_line;
use script_load::{Line, LoadFault, load};
use sh_lexer::tokens;
use std::alloc::{AllocError, Global};

// The first line without its LF, and the bytes after it.
fn next_line(bytes: &[u8]) -> Option<(&[u8], &[u8])>
    ensures none { IfNone result (bytes.now ≡ []) }
    ensures some { IfSome result (λ cut. IsFirstLine bytes.now cut.0.now cut.1.now) }
{
    if bytes.is_empty() {
        return None;
    }
    match split_line(bytes) {
        Some(cut) => Some(cut),
        None => Some((bytes, &[])),
    }
}

// Adds the notes of a line.
fn add_line_notes(row: Row<'_>, line: &Line<Global>, notes: &mut NoteList) -> Result<(), AllocError>
    requires { IsLineOf row.text.now (line_of line.now) }
    ensures { OnOk result ((found : List Note) × HasNotes row.entry.number row.entry.text.now (line_of line.now) found
        × (so_far notes.new ≡ so_far notes.old ++ notes_on row.entry found)) }
{
    add_byte_notes(row, notes)?;
    if let Line::Cd(_) = line {
        return add_cd_note(row, notes);
    }
    let all = tokens(notes.alloc, row.text)?;
    let tokens = all.as_slice();
    add_token_notes(row, tokens, notes)?;
    match line {
        Line::Cd(_) => Ok(()),
        Line::Bad(fault, _) => add_fault_note(row, *fault, notes),
        Line::Tree(tree) => {
            add_command_notes(row, tree, tokens, notes)?;
            add_clash_note(row, tree, tokens, notes)
        }
    }
}

/// The notes of a script, in the order of its lines (own): on a `#` that begins no comment, a quote that is none, a
/// byte order mark, a carriage return, `||`, `&&`, `;;`, a `|` at the end, `2>`, a variable, a pattern, an option, a line that
/// is no command, a command that runs no program, a name that no file can have, a `cd`, a `&`, a `>>`, a redirection that another
/// replaces, and the first clash of a line. Nothing is run. The errors are those of `load`.
pub fn notes_of(alloc: Global, bytes: &[u8]) -> Result<Vec<LineNote>, LoadFault>
    ensures notes { IfOk result (λ notes. IsNoted bytes.now (values_of notes.items)) }
    ensures fault { IfErr result (HasLoadFault bytes.now) }
{
    let script = load(alloc, bytes)?;
    let mut notes = NoteList::new(alloc);
    let mut rest = bytes;
    for (i, line) in script.lines.as_slice().iter().enumerate() {
        let Some((text, after)) = next_line(rest) else {
            unreachable!()
        };
        let row = Row {
            number: i + 1,
            text,
        };
        add_line_notes(row, line, &mut notes)?;
        rest = after;
    }
    Ok(notes.list)
}
