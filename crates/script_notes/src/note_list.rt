//! The notes so far.
ghost use Rattle.std.specs.Prelude.{◌≡◌, ◌++◌, ◌≤◌, ◌∷◌, [], length, OnOk};
ghost use Rattle.script_notes.specs.Notes.{note_where};
ghost use Rattle.script_notes.specs.Spans.{AreSpansFrom};
ghost use Rattle.script_notes.specs.Values.{notes_on, so_far};

use crate::kind::NoteKind;
use crate::line_note::LineNote;
use crate::row::Row;
use crate::span::Span;
use std::alloc::{AllocError, Global};

/// The notes so far, and where memory for more comes from.
#[derive(Drop)]
pub struct NoteList {
    pub alloc: Global,
    pub list: Vec<LineNote>,
}

impl NoteList {
    /// No notes.
    pub fn new(alloc: Global) -> NoteList
        ensures { so_far result ≡ [] }
    {
        NoteList {
            alloc,
            list: Vec::new(alloc),
        }
    }

    /// Adds a note of a line: what it says of these places.
    pub fn add(&mut self, row: Row<'_>, kind: NoteKind, spans: &[Span]) -> Result<(), AllocError>
        requires { AreSpansFrom row.text.now 0 spans.now }
        ensures { OnOk result (so_far self.new ≡ so_far self.old ++ notes_on row.entry (record { kind = kind; spans = spans.now } ∷ [])) }
    {
        let note = LineNote {
            line: row.number,
            text: Vec::from_slice(self.alloc, row.text)?,
            kind,
            spans: Vec::from_slice(self.alloc, spans)?,
        };
        self.list.push(note)?;
        Ok(())
    }

    /// Adds a note of this kind and place where the condition holds.
    pub fn add_where(
        &mut self,
        row: Row<'_>,
        holds: bool,
        kind: NoteKind,
        span: Span,
    ) -> Result<(), AllocError>
        requires order { span.first ≤ span.past }
        requires inside { span.past ≤ length row.text.now }
        ensures { OnOk result (so_far self.new ≡ so_far self.old ++ notes_on row.entry (note_where holds kind span.first span.past)) }
    {
        if holds {
            self.add(row, kind, &[span])?;
        }
        Ok(())
    }
}
