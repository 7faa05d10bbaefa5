//! Notes of a command's tokens.
ghost use Rattle.std.specs.Prelude.{◌≡◌, ◌++◌, [], ◌∷◌, List, OnOk};
ghost use Rattle.sh_lexer.specs.declared.token.Kind.{Kind};
ghost use Rattle.sh_lexer.specs.Tokens.{IsToken, IsTokenList};
ghost use Rattle.sh_tree.specs.Tree.{tree_of};
ghost use Rattle.script_notes.specs.Commands.{lacks_program, lacks_file, over_kind, senses_by, senses_of, command_notes};
ghost use Rattle.script_notes.specs.Letters.{text_of};
ghost use Rattle.script_notes.specs.Values.{notes_on, so_far};
ghost use Rattle.script_notes.specs.Segments.{seen_of};

use crate::kind::NoteKind;
use crate::letters::{span_of, text_of};
use crate::note_list::NoteList;
use crate::others::lacking_kind;
use crate::row::Row;
use conflict_check::names_it;
use mem_files::is_openable;
use prog_parts::Program;
use sh_lexer::{Kind, Token};
use sh_tree::Cmd;
use std::alloc::{AllocError, Global};

/// What the tokens before a token in its segment say of it.
#[derive(Clone, Copy)]
pub struct Seen {
    /// A word here is a file's name.
    pub names_file: bool,
    /// The command has its name.
    pub has_name: bool,
    /// There was a `<`.
    pub has_input: bool,
    /// There was a `>` or a `>>`.
    pub has_output: bool,
}

// At a segment's beginning.
const NOTHING: Seen = Seen {
    names_file: false,
    has_name: false,
    has_input: false,
    has_output: false,
};

impl Seen {
    // What is seen after a token of this kind too.
    fn after(self, kind: Kind) -> Seen
        ensures { (back : List Kind) → self ≡ seen_of back → result ≡ seen_of (kind ∷ back) }
    {
        match kind {
            Kind::Word => Seen {
                names_file: false,
                has_name: !self.names_file || self.has_name,
                ..self
            },
            Kind::Less => Seen {
                names_file: true,
                has_input: true,
                ..self
            },
            Kind::More | Kind::MoreMore => Seen {
                names_file: true,
                has_output: true,
                ..self
            },
            Kind::Bar | Kind::Amp | Kind::Semi | Kind::LeftParen | Kind::RightParen => NOTHING,
        }
    }
}

fn lacks_program(seen: Seen, word: &[u8]) -> bool
    ensures { result ≡ lacks_program seen word.now }
{
    !seen.names_file && !seen.has_name && Program::named(word).is_none()
}

fn lacks_file(tree: &Cmd<Global>, word: &[u8]) -> bool
    ensures { result ≡ lacks_file (tree_of tree.now) word.now }
{
    names_it(tree, word) && !is_openable(word)
}

fn over_kind(has_output: bool) -> NoteKind
    ensures { result ≡ over_kind has_output }
{
    if has_output {
        NoteKind::OutputUnwritten
    } else {
        NoteKind::WritesOver
    }
}

// Adds the notes of a word of a command.
fn add_word(
    row: Row<'_>,
    tree: &Cmd<Global>,
    seen: Seen,
    token: &Token,
    notes: &mut NoteList,
) -> Result<(), AllocError>
    requires { IsToken row.text.now token.now }
    ensures { OnOk result (so_far notes.new ≡ so_far notes.old ++ notes_on row.entry (senses_by Kind.Word (tree_of tree.now) seen (text_of row.entry.text.now token.now) token.now)) }
{
    let word = text_of(row.text, token);
    let span = span_of(token);
    let is_unknown = lacks_program(seen, word);
    notes.add_where(row, is_unknown, lacking_kind(word), span)?;
    let is_no_name = lacks_file(tree, word);
    notes.add_where(row, is_no_name, NoteKind::NoFileName, span)
}

// Adds the notes of a token of a command.
fn add_senses(
    row: Row<'_>,
    tree: &Cmd<Global>,
    seen: Seen,
    token: &Token,
    notes: &mut NoteList,
) -> Result<(), AllocError>
    requires { IsToken row.text.now token.now }
    ensures { OnOk result (so_far notes.new ≡ so_far notes.old ++ notes_on row.entry (senses_of row.entry.text.now (tree_of tree.now) seen token.now)) }
{
    let (holds, kind) = match token.kind {
        Kind::Word => return add_word(row, tree, seen, token, notes),
        Kind::Less => (seen.has_input, NoteKind::InputUnread),
        Kind::More => (seen.has_output, NoteKind::OutputEmptied),
        Kind::MoreMore => (true, over_kind(seen.has_output)),
        Kind::Amp => (true, NoteKind::Background),
        Kind::Bar | Kind::Semi | Kind::LeftParen | Kind::RightParen => return Ok(()),
    };
    notes.add_where(row, holds, kind, span_of(token))
}

/// Adds the notes of a command's tokens.
pub fn add_command_notes(
    row: Row<'_>,
    tree: &Cmd<Global>,
    tokens: &[Token],
    notes: &mut NoteList,
) -> Result<(), AllocError>
    requires { IsTokenList row.text.now tokens.now }
    ensures { OnOk result (so_far notes.new ≡ so_far notes.old ++ notes_on row.entry (command_notes row.entry.text.now (tree_of tree.now) [] tokens.now)) }
{
    let mut seen = NOTHING;
    let mut rest = tokens;
    while let Some((token, after)) = rest.split_first() {
        add_senses(row, tree, seen, token, notes)?;
        seen = seen.after(token.kind);
        rest = after;
    }
    Ok(())
}
