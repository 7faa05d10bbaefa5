//! Notes by a line's letters.
ghost use Rattle.std.specs.Prelude.{◌≡◌, ◌++◌, ◌≤◌, length, OnOk, IsTrue};
ghost use Rattle.std.specs.List.{list_any};
ghost use Rattle.sh_lexer.specs.Tokens.{IsToken, IsTokenList};
ghost use Rattle.script_notes.specs.Letters.{begins_with_mark, ends_in_return, mark_notes, return_notes, byte_notes, text_of, begins_comment, is_back_quote, is_quote, letters_of, letter_notes};
ghost use Rattle.script_notes.specs.Values.{notes_on, so_far};

use crate::kind::NoteKind;
use crate::note_list::NoteList;
use crate::row::Row;
use crate::span::Span;
use sh_lexer::Token;
use std::alloc::{AllocError, Global};

fn begins_with_mark(text: &[u8]) -> bool
    ensures same { result ≡ begins_with_mark text.now }
    ensures inside { IsTrue result → 3 ≤ length text.now }
{
    text.len() >= 3 && &text[..3] == b"\xEF\xBB\xBF".as_slice()
}

fn ends_in_return(text: &[u8]) -> bool
    ensures same { result ≡ ends_in_return text.now }
    ensures inside { IsTrue result → 1 ≤ length text.now }
{
    text.len() >= 1 && text[text.len() - 1] == b'\r'
}

// Adds the note of the byte order mark that a script begins with.
fn add_mark_note(row: Row<'_>, notes: &mut NoteList) -> Result<(), AllocError>
    ensures { OnOk result (so_far notes.new ≡ so_far notes.old ++ notes_on row.entry (mark_notes row.entry.number row.entry.text.now)) }
{
    if row.number == 1 && begins_with_mark(row.text) {
        let span = Span { first: 0, past: 3 };
        notes.add(row, NoteKind::ByteOrderMark, &[span])?;
    }
    Ok(())
}

// Adds the note of the carriage return that a line ends in.
fn add_return_note(row: Row<'_>, notes: &mut NoteList) -> Result<(), AllocError>
    ensures { OnOk result (so_far notes.new ≡ so_far notes.old ++ notes_on row.entry (return_notes row.entry.text.now)) }
{
    if ends_in_return(row.text) {
        let span = Span {
            first: row.text.len() - 1,
            past: row.text.len(),
        };
        notes.add(row, NoteKind::CarriageReturn, &[span])?;
    }
    Ok(())
}

/// Adds the notes by a line's first and last bytes.
pub fn add_byte_notes(row: Row<'_>, notes: &mut NoteList) -> Result<(), AllocError>
    ensures { OnOk result (so_far notes.new ≡ so_far notes.old ++ notes_on row.entry (byte_notes row.entry.number row.entry.text.now)) }
{
    add_mark_note(row, notes)?;
    add_return_note(row, notes)
}

/// The bytes of a token.
pub fn text_of<'l>(line: &'l [u8], token: &Token) -> &'l [u8]
    requires { IsToken line.now token.now }
    ensures { result.now ≡ text_of line.now token.now }
{
    &line[token.first..token.past]
}

/// The place of a token.
pub fn span_of(token: &Token) -> Span
    ensures first { result.first ≡ token.now.first }
    ensures past { result.past ≡ token.now.past }
{
    Span {
        first: token.first,
        past: token.past,
    }
}

fn begins_comment(word: &[u8]) -> bool
    ensures { result ≡ begins_comment word.now }
{
    match word.split_first() {
        Some((first, _)) => *first == b'#',
        None => false,
    }
}

fn is_quote(byte: u8) -> bool
    ensures { result ≡ is_quote byte }
{
    byte == b'"' || byte == b'\'' || byte == b'\\'
}

fn has_quote(word: &[u8]) -> bool
    ensures { result ≡ list_any is_quote word.now }
{
    word.iter().any(|byte| is_quote(*byte))
}

fn is_back_quote(byte: u8) -> bool
    ensures { result ≡ is_back_quote byte }
{
    byte == b'`'
}

fn has_back_quote(word: &[u8]) -> bool
    ensures { result ≡ list_any is_back_quote word.now }
{
    word.iter().any(|byte| is_back_quote(*byte))
}

fn add_letters(row: Row<'_>, token: &Token, notes: &mut NoteList) -> Result<(), AllocError>
    requires { IsToken row.text.now token.now }
    ensures { OnOk result (so_far notes.new ≡ so_far notes.old ++ notes_on row.entry (letters_of row.entry.text.now token.now)) }
{
    let word = text_of(row.text, token);
    let span = span_of(token);
    let is_comment = begins_comment(word);
    notes.add_where(row, is_comment, NoteKind::NoComment, span)?;
    let is_quoted = has_quote(word);
    notes.add_where(row, is_quoted, NoteKind::NoQuote, span)?;
    let is_run = has_back_quote(word);
    notes.add_where(row, is_run, NoteKind::NoBackQuote, span)
}

/// Adds the notes by the letters of a line's tokens.
pub fn add_letter_notes(
    row: Row<'_>,
    tokens: &[Token],
    notes: &mut NoteList,
) -> Result<(), AllocError>
    requires { IsTokenList row.text.now tokens.now }
    ensures { OnOk result (so_far notes.new ≡ so_far notes.old ++ notes_on row.entry (letter_notes row.entry.text.now tokens.now)) }
{
    let mut rest = tokens;
    while let Some((token, after)) = rest.split_first() {
        add_letters(row, token, notes)?;
        rest = after;
    }
    Ok(())
}
