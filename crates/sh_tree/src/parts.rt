//! The words and redirections of a simple command, and the redirections of a block.
ghost use Rattle.std.specs.Prelude.{◌≡◌, ◌++◌, true, length, IfOk, OnOk, MatchOption, slice_range};
ghost use Rattle.sh_lexer.specs.Tokens.{IsToken};
ghost use Rattle.sh_tree.specs.Grammar.{wrapped};
ghost use Rattle.sh_tree.specs.Lexeme.{lexemes};
ghost use Rattle.sh_tree.specs.Reading.{may_follow_command, mode_of, words_of, redirections_of, IsInParts, ReadsPart, ReadsWords, CountsWords, Reads, Wraps};
ghost use Rattle.sh_tree.specs.Tree.{tree_of};

use crate::tree::{Cmd, Mode};
use crate::words::Words;
use sh_lexer::{Bytes, Kind, Token};
use std::alloc::{AllocError, Allocator};

/// A part of a simple command: a word, or a redirection with its name.
#[derive(Clone, Copy)]
pub enum Part<'l> {
    Word(&'l [u8]),
    Redirection(Mode, &'l [u8]),
}

fn text_of<'l>(line: &'l [u8], token: &Token) -> &'l [u8]
    requires { IsToken line.now token.now }
    ensures { result.now ≡ slice_range line.now token.now.first token.now.past }
{
    &line[token.first..token.past]
}

fn mode_of(kind: Kind) -> Option<Mode>
    ensures { result ≡ mode_of kind }
{
    match kind {
        Kind::Less => Some(Mode::Input),
        Kind::More => Some(Mode::Fresh),
        Kind::MoreMore => Some(Mode::Over),
        _ => None,
    }
}

// The first part and the tokens after it, or None where the parts end.
fn split_part<'l, 't>(line: &'l [u8], tokens: &'t [Token]) -> Option<(Part<'l>, &'t [Token])>
    requires { IsInParts line.now tokens.now }
    ensures { MatchOption result (may_follow_command (lexemes line.now tokens.now) ≡ true) (λ p. ReadsPart line.now tokens.now p.0 p.1.now) }
{
    let (first, after) = tokens.split_first()?;
    if first.kind == Kind::Word {
        return Some((Part::Word(text_of(line, first)), after));
    }
    let mode = mode_of(first.kind)?;
    let Some((name, rest)) = after.split_first() else {
        unreachable!()
    };
    Some((Part::Redirection(mode, text_of(line, name)), rest))
}

fn words_in(part: Part) -> usize
    ensures { result ≡ length (words_of part.entry) }
{
    match part {
        Part::Word(_) => 1,
        Part::Redirection(..) => 0,
    }
}

fn count_words(line: &[u8], tokens: &[Token]) -> usize
    requires { IsInParts line.now tokens.now }
    ensures { CountsWords line.now tokens.now result }
{
    let mut count = 0;
    let mut rest = tokens;
    while let Some((part, after)) = split_part(line, rest) {
        count += words_in(part);
        rest = after;
    }
    count
}

fn push_word<A: Allocator + Copy>(
    alloc: A,
    words: &mut Vec<Bytes<A>, A>,
    part: Part,
) -> Result<(), AllocError>
    ensures { OnOk result (words.new.items ≡ words.old.items ++ words_of part.entry) }
{
    if let Part::Word(text) = part {
        words.push(Bytes::copy_of(alloc, text)?)?;
    }
    Ok(())
}

/// The words of a simple command (`user/sh.c`'s `parseexec`).
pub fn parse_words<A: Allocator + Copy>(
    alloc: A,
    line: &[u8],
    tokens: &[Token],
) -> Result<Words<A>, AllocError>
    requires { IsInParts line.now tokens.now }
    ensures { IfOk result (λ words. ReadsWords line.now tokens.now words) }
{
    let mut words = Vec::with_capacity(alloc, count_words(line, tokens))?;
    let mut rest = tokens;
    while let Some((part, after)) = split_part(line, rest) {
        push_word(alloc, &mut words, part)?;
        rest = after;
    }
    Ok(Words::from_vec(words))
}

fn wrap_part<A: Allocator + Copy>(
    alloc: A,
    part: Part,
    command: Cmd<A>,
) -> Result<Cmd<A>, AllocError>
    ensures { IfOk result (λ tree. tree_of tree ≡ wrapped (redirections_of part.entry) (tree_of command)) }
{
    match part {
        Part::Word(_) => Ok(command),
        Part::Redirection(mode, name) => Ok(Cmd::Redir {
            mode,
            name: Bytes::copy_of(alloc, name)?,
            body: Box::new(alloc, command)?,
        }),
    }
}

/// A command in the redirections among the parts, and the tokens after them
/// (`user/sh.c`'s `parseredirs`).
pub fn parse_redirections<'t, A: Allocator + Copy>(
    alloc: A,
    line: &[u8],
    command: Cmd<A>,
    tokens: &'t [Token],
) -> Result<(Cmd<A>, &'t [Token]), AllocError>
    requires { IsInParts line.now tokens.now }
    ensures { IfOk result (λ r. Reads (Wraps (tree_of command)) may_follow_command line.now tokens.now r.1.now (tree_of r.0)) }
{
    let mut command = command;
    let mut rest = tokens;
    while let Some((part, after)) = split_part(line, rest) {
        command = wrap_part(alloc, part, command)?;
        rest = after;
    }
    Ok((command, rest))
}
