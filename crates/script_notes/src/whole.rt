//! Notes of a whole line.
ghost use Rattle.std.specs.Prelude.{◌≡◌, ◌≤◌, ◌++◌, [], ◌∷◌, List, length, IfOk, OnOk, MatchOption};
ghost use Rattle.sh_lexer.specs.Tokens.{IsTokenList};
ghost use Rattle.sh_tree.specs.Fault.{place_told};
ghost use Rattle.sh_tree.specs.Tree.{tree_of};
ghost use Rattle.script_notes.specs.Notes.{Note, note_of};
ghost use Rattle.script_notes.specs.Values.{notes_on, so_far};
ghost use Rattle.script_notes.specs.Whole.{cd_note, fault_notes, is_paren, left_kind, places_of, clash_kind, IsClashNoted};

use crate::kind::NoteKind;
use crate::letters::{span_of, text_of};
use crate::note_list::NoteList;
use crate::row::Row;
use crate::span::Span;
use conflict_check::{ClashKind, clash};
use sh_lexer::{Kind, Token};
use sh_tree::{Cmd, ParseFault};
use std::alloc::{AllocError, Global};

/// Adds the note of a line that begins with `cd `.
pub fn add_cd_note(row: Row<'_>, notes: &mut NoteList) -> Result<(), AllocError>
    requires { 2 ≤ length row.text.now }
    ensures { OnOk result (so_far notes.new ≡ so_far notes.old ++ notes_on row.entry (cd_note ∷ [])) }
{
    let span = Span { first: 0, past: 2 };
    notes.add(row, NoteKind::NoDirectories, &[span])
}

// The kind of the note of what is left, by its first byte.
fn left_kind(byte: Option<u8>) -> NoteKind
    ensures { result ≡ left_kind (is_paren byte) }
{
    match byte {
        Some(b')') => NoteKind::StrayParen,
        _ => NoteKind::LeftOver,
    }
}

// The kind of the note of a fault, and its place.
fn fault_note(text: &[u8], fault: ParseFault) -> Option<(NoteKind, usize)>
    ensures { MatchOption result (fault_notes text.now fault ≡ []) (λ note. (fault_notes text.now fault ≡ note_of note.0 note.1 note.1 ∷ []) × (note.1 ≡ place_told fault)) }
{
    match fault {
        ParseFault::MissingFile(at) => Some((NoteKind::MissingName, at)),
        ParseFault::MissingParen(at) => Some((NoteKind::OpenParen, at)),
        ParseFault::TooManyWords(at) => Some((NoteKind::TenthWord, at)),
        ParseFault::Unexpected(at) => Some((NoteKind::LateParen, at)),
        ParseFault::Leftover(at) => Some((left_kind(text.get(at).copied()), at)),
        ParseFault::Memory => None,
    }
}

/// Adds the note of a line's fault.
pub fn add_fault_note(
    row: Row<'_>,
    fault: ParseFault,
    notes: &mut NoteList,
) -> Result<(), AllocError>
    requires { place_told fault ≤ length row.text.now }
    ensures { OnOk result (so_far notes.new ≡ so_far notes.old ++ notes_on row.entry (fault_notes row.entry.text.now fault)) }
{
    let Some((kind, at)) = fault_note(row.text, fault) else {
        return Ok(());
    };
    let span = Span {
        first: at,
        past: at,
    };
    notes.add(row, kind, &[span])
}

// The words of the line that are this name.
fn places_of(
    alloc: Global,
    text: &[u8],
    name: &[u8],
    tokens: &[Token],
) -> Result<Vec<Span>, AllocError>
    requires { IsTokenList text.now tokens.now }
    ensures { IfOk result (λ spans. spans.items ≡ places_of text.now name.now tokens.now) }
{
    let mut spans = Vec::new(alloc);
    let mut rest = tokens;
    while let Some((token, after)) = rest.split_first() {
        if token.kind == Kind::Word && text_of(text, token) == name {
            spans.push(span_of(token))?;
        }
        rest = after;
    }
    Ok(spans)
}

fn clash_kind(kind: ClashKind) -> NoteKind
    ensures { result ≡ clash_kind kind }
{
    match kind {
        ClashKind::PipeSides => NoteKind::PipeClash,
        ClashKind::Enclosing => NoteKind::RedirectionClash,
    }
}

/// Adds the note of a command's first clash, if it has one.
pub fn add_clash_note(
    row: Row<'_>,
    tree: &Cmd<Global>,
    tokens: &[Token],
    notes: &mut NoteList,
) -> Result<(), AllocError>
    requires { IsTokenList row.text.now tokens.now }
    ensures { OnOk result ((last : List Note) × IsClashNoted (tree_of tree.now) row.entry.text.now tokens.now last
        × (so_far notes.new ≡ so_far notes.old ++ notes_on row.entry last)) }
{
    let Some(found) = clash(tree) else {
        return Ok(());
    };
    let spans = places_of(notes.alloc, row.text, found.name, tokens)?;
    notes.add(row, clash_kind(found.kind), spans.as_slice())
}
