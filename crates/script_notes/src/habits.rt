//! Notes on habits from other shells and systems.
ghost use Rattle.std.specs.Prelude.{◌≡◌, ◌++◌, ◌≤◌, ◌∷◌, [], List, None, OnOk, Some, if◌then◌else◌, length};
ghost use Rattle.sh_lexer.specs.declared.token.Token.{Token};
ghost use Rattle.sh_lexer.specs.Tokens.{IsToken, IsTokenList};
ghost use Rattle.script_notes.specs.Habits.{after_word, begins_option, behind, ends_in_dollar, habit_notes, habits_of, has_braces, has_glob, has_variable, here_kind, is_argument, is_bar, is_digit, is_grep, is_home, is_less, is_less_byte, is_numbered, is_option, is_pattern, known_notes, made_notes, note_if, option_kind, pair_kind, said_of, token_notes, word_habits};
ghost use Rattle.script_notes.specs.Letters.{text_of};
ghost use Rattle.script_notes.specs.Values.{notes_on, so_far};

use crate::kind::NoteKind;
use crate::letters::{add_letter_notes, span_of, text_of};
use crate::note_list::NoteList;
use crate::row::Row;
use crate::span::Span;
use prog_parts::Program;
use sh_lexer::{Kind, Token};
use std::alloc::{AllocError, Global};

/// What the tokens before a token say of it.
#[derive(Clone, Copy)]
pub struct Said {
    /// The kind of the nearest.
    pub last: Option<Kind>,
    /// The kind of the one before that.
    pub before: Option<Kind>,
    /// Where the nearest ends, if it is a word of one digit.
    pub number_end: Option<usize>,
    /// Where the nearest ends, if it is a word that ends in `$`.
    pub dollar_end: Option<usize>,
    /// A word here is a file's name.
    pub names_file: bool,
    /// The command has its name.
    pub has_name: bool,
    /// It has an argument.
    pub has_argument: bool,
    /// The program of that name.
    pub program: Option<Program>,
}

// At a line's beginning.
const NOTHING: Said = Said {
    last: None,
    before: None,
    number_end: None,
    dollar_end: None,
    names_file: false,
    has_name: false,
    has_argument: false,
    program: None,
};

// A word of one digit.
fn is_digit(word: &[u8]) -> bool
    ensures { result ≡ is_digit word.now }
{
    match word.split_first() {
        Some((byte, rest)) => b'0' <= *byte && *byte <= b'9' && rest.is_empty(),
        None => false,
    }
}

fn ends_in_dollar(word: &[u8]) -> bool
    ensures { result ≡ ends_in_dollar word.now }
{
    match word.last() {
        Some(byte) => *byte == b'$',
        None => false,
    }
}

// Where a word ends, if it is such a word.
fn end_where(is_such: bool, past: usize) -> Option<usize>
    ensures { result ≡ (if is_such then Some past else None) }
{
    if is_such { Some(past) } else { None }
}

impl Said {
    // What is said after this word too.
    fn after_word(self, word: &[u8], past: usize) -> Said
        ensures { result ≡ after_word self word.now past }
    {
        let next = Said {
            last: Some(Kind::Word),
            before: self.last,
            number_end: end_where(is_digit(word), past),
            dollar_end: end_where(ends_in_dollar(word), past),
            names_file: false,
            ..self
        };
        if self.names_file {
            return next;
        }
        Said {
            has_name: true,
            has_argument: self.has_name,
            program: if self.has_name {
                self.program
            } else {
                Program::named(word)
            },
            ..next
        }
    }

    // What is said after this token too.
    fn after(self, text: &[u8], token: &Token) -> Said
        requires { IsToken text.now token.now }
        ensures { (back : List Token) → self ≡ said_of text.now back → result ≡ said_of text.now (token.now ∷ back) }
    {
        match token.kind {
            Kind::Word => self.after_word(text_of(text, token), token.past),
            Kind::Less | Kind::More | Kind::MoreMore => Said {
                last: Some(token.kind),
                before: self.last,
                number_end: None,
                dollar_end: None,
                names_file: true,
                ..self
            },
            Kind::Bar | Kind::Amp | Kind::Semi | Kind::LeftParen | Kind::RightParen => Said {
                last: Some(token.kind),
                before: self.last,
                ..NOTHING
            },
        }
    }

    fn is_argument(self) -> bool
        ensures { result ≡ is_argument self }
    {
        !self.names_file && self.has_name
    }

    // Whether a word here is grep's pattern.
    fn is_pattern(self) -> bool
        ensures { result ≡ is_pattern self }
    {
        self.is_argument() && !self.has_argument && is_grep(self.program)
    }
}

fn is_grep(program: Option<Program>) -> bool
    ensures { result ≡ is_grep program }
{
    matches!(program, Some(Program::Grep))
}

fn has_variable(word: &[u8]) -> bool
    ensures { result ≡ has_variable word.now }
{
    word[..word.len().saturating_sub(1)]
        .iter()
        .any(|byte| *byte == b'$')
}

fn has_glob(word: &[u8]) -> bool
    ensures { result ≡ has_glob word.now }
{
    word.iter().any(|byte| *byte == b'*' || *byte == b'[')
}

fn is_home(word: &[u8]) -> bool
    ensures { result ≡ is_home word.now }
{
    match word {
        [byte] => *byte == b'~',
        [byte, next, ..] => *byte == b'~' && *next == b'/',
        _ => false,
    }
}

// What stands behind the first such byte.
fn behind(byte: u8, bytes: &[u8]) -> &[u8]
    ensures { result.now ≡ behind byte bytes.now }
{
    let mut rest = bytes;
    while let Some((first, after)) = rest.split_first() {
        if *first == byte {
            return after;
        }
        rest = after;
    }
    &[]
}

fn has_braces(word: &[u8]) -> bool
    ensures { result ≡ has_braces word.now }
{
    behind(b',', behind(b'{', word))
        .iter()
        .any(|byte| *byte == b'}')
}

fn begins_option(byte: u8) -> bool
    ensures { result ≡ begins_option byte }
{
    byte == b'-' || (b'A' <= byte && byte <= b'Z') || (b'a' <= byte && byte <= b'z')
}

fn is_option(word: &[u8]) -> bool
    ensures { result ≡ is_option word.now }
{
    match word {
        [byte, next, ..] => *byte == b'-' && begins_option(*next),
        _ => false,
    }
}

// What a program takes an option for.
fn option_kind(program: Option<Program>, is_first: bool) -> Option<NoteKind>
    ensures { result ≡ option_kind program is_first }
{
    match program? {
        Program::Cat | Program::Wc => Some(NoteKind::NoOption),
        Program::Echo => Some(NoteKind::EchoOption),
        Program::Grep if is_first => Some(NoteKind::GrepOption),
        Program::Head if is_first => Some(NoteKind::HeadOption),
        Program::Grep | Program::Head => Some(NoteKind::NoOption),
        Program::Tee => Some(NoteKind::TeeOption),
    }
}

// The kind of the note of a sign behind another.
fn pair_kind(last: Option<Kind>, kind: Kind) -> Option<NoteKind>
    ensures { result ≡ pair_kind last kind }
{
    match (last, kind) {
        (Some(Kind::Bar), Kind::Bar) => Some(NoteKind::NoOr),
        (Some(Kind::Amp), Kind::Amp) => Some(NoteKind::NoAnd),
        (Some(Kind::Bar), Kind::Amp) => Some(NoteKind::NoMessagePipe),
        (Some(Kind::Semi), Kind::Semi) => Some(NoteKind::NoCommand),
        _ => None,
    }
}

fn is_numbered(number_end: Option<usize>, first: usize) -> bool
    ensures { result ≡ is_numbered number_end first }
{
    match number_end {
        Some(past) => past == first,
        None => false,
    }
}

fn is_less(kind: Option<Kind>) -> bool
    ensures { result ≡ is_less kind }
{
    matches!(kind, Some(Kind::Less))
}

fn is_less_byte(byte: Option<u8>) -> bool
    ensures { result ≡ is_less_byte byte }
{
    match byte {
        Some(byte) => byte == b'<',
        None => false,
    }
}

// The kind of the note of a `<` behind another, before this byte.
fn here_kind(next: Option<u8>) -> NoteKind
    ensures { result ≡ here_kind next }
{
    if is_less_byte(next) {
        NoteKind::NoHereWord
    } else {
        NoteKind::NoHereText
    }
}

// Adds the note of this kind and place, if there is a kind and the condition holds.
fn add_if(
    row: Row<'_>,
    holds: bool,
    kind: Option<NoteKind>,
    span: Span,
    notes: &mut NoteList,
) -> Result<(), AllocError>
    requires order { span.first ≤ span.past }
    requires inside { span.past ≤ length row.text.now }
    ensures { OnOk result (so_far notes.new ≡ so_far notes.old ++ notes_on row.entry (note_if holds kind span.first span.past)) }
{
    match kind {
        Some(kind) => notes.add_where(row, holds, kind, span),
        None => Ok(()),
    }
}

// Adds the notes of a word for what other shells know: variables and files.
fn add_known(
    row: Row<'_>,
    said: Said,
    token: &Token,
    notes: &mut NoteList,
) -> Result<(), AllocError>
    requires { IsToken row.text.now token.now }
    ensures { OnOk result (so_far notes.new ≡ so_far notes.old ++ notes_on row.entry (known_notes said (text_of row.entry.text.now token.now) token.now)) }
{
    let word = text_of(row.text, token);
    let span = span_of(token);
    let is_variable = has_variable(word) && !said.is_pattern();
    notes.add_where(row, is_variable, NoteKind::NoVariable, span)?;
    let is_glob = has_glob(word) && !said.is_pattern();
    notes.add_where(row, is_glob, NoteKind::NoPattern, span)
}

// Adds the notes of a word for what other shells make of it: a path, and words.
fn add_made(row: Row<'_>, said: Said, token: &Token, notes: &mut NoteList) -> Result<(), AllocError>
    requires { IsToken row.text.now token.now }
    ensures { OnOk result (so_far notes.new ≡ so_far notes.old ++ notes_on row.entry (made_notes said (text_of row.entry.text.now token.now) token.now)) }
{
    let word = text_of(row.text, token);
    let span = span_of(token);
    let is_home = is_home(word) && !said.is_pattern();
    notes.add_where(row, is_home, NoteKind::NoHome, span)?;
    let is_braced = has_braces(word) && !said.is_pattern();
    notes.add_where(row, is_braced, NoteKind::NoBraces, span)
}

// Adds the notes of a word.
fn add_word(row: Row<'_>, said: Said, token: &Token, notes: &mut NoteList) -> Result<(), AllocError>
    requires { IsToken row.text.now token.now }
    ensures { OnOk result (so_far notes.new ≡ so_far notes.old ++ notes_on row.entry (word_habits said (text_of row.entry.text.now token.now) token.now)) }
{
    add_known(row, said, token, notes)?;
    add_made(row, said, token, notes)?;
    let word = text_of(row.text, token);
    let span = span_of(token);
    let is_option = is_option(word) && said.is_argument();
    let kind = option_kind(said.program, !said.has_argument);
    add_if(row, is_option, kind, span, notes)
}

// Adds the notes of a token.
fn add_habits(
    row: Row<'_>,
    said: Said,
    token: &Token,
    notes: &mut NoteList,
) -> Result<(), AllocError>
    requires { IsToken row.text.now token.now }
    ensures { OnOk result (so_far notes.new ≡ so_far notes.old ++ notes_on row.entry (habits_of row.entry.text.now said token.now)) }
{
    let span = span_of(token);
    let (holds, kind) = match token.kind {
        Kind::Word => return add_word(row, said, token, notes),
        Kind::More | Kind::MoreMore => {
            let holds = is_numbered(said.number_end, token.first);
            (holds, Some(NoteKind::NoNumber))
        }
        Kind::Bar | Kind::Amp | Kind::Semi => (true, pair_kind(said.last, token.kind)),
        Kind::Less => {
            let holds = is_less(said.last) && !is_less(said.before);
            (holds, Some(here_kind(row.text.get(token.past).copied())))
        }
        Kind::LeftParen => {
            let holds = is_numbered(said.dollar_end, token.first);
            (holds, Some(NoteKind::NoSubstitution))
        }
        Kind::RightParen => return Ok(()),
    };
    add_if(row, holds, kind, span, notes)
}

fn is_bar(last: Option<Kind>) -> bool
    ensures { result ≡ is_bar last }
{
    matches!(last, Some(Kind::Bar))
}

// Adds the notes on habits by a line's tokens.
fn add_habit_notes(row: Row<'_>, tokens: &[Token], notes: &mut NoteList) -> Result<(), AllocError>
    requires { IsTokenList row.text.now tokens.now }
    ensures { OnOk result (so_far notes.new ≡ so_far notes.old ++ notes_on row.entry (habit_notes row.entry.text.now [] tokens.now)) }
{
    let mut said = NOTHING;
    let mut rest = tokens;
    while let Some((token, after)) = rest.split_first() {
        add_habits(row, said, token, notes)?;
        said = said.after(row.text, token);
        rest = after;
    }
    let end = Span {
        first: row.text.len(),
        past: row.text.len(),
    };
    let is_open = is_bar(said.last);
    notes.add_where(row, is_open, NoteKind::LastBar, end)
}

/// Adds the notes by a line's tokens: by their letters, and on habits from other shells and systems.
pub fn add_token_notes(
    row: Row<'_>,
    tokens: &[Token],
    notes: &mut NoteList,
) -> Result<(), AllocError>
    requires { IsTokenList row.text.now tokens.now }
    ensures { OnOk result (so_far notes.new ≡ so_far notes.old ++ notes_on row.entry (token_notes row.entry.text.now tokens.now)) }
{
    add_letter_notes(row, tokens, notes)?;
    add_habit_notes(row, tokens, notes)
}
