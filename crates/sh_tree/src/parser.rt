//! The recursive descent over the tokens of a line that the automaton has accepted. So the only
//! error of its functions is that memory is refused.
ghost use Rattle.std.specs.Prelude.{◌≡◌, ℕ, List, IfOk, IfErr, MatchOption};
ghost use Rattle.sh_tree.specs.Fault.{HasFault, HasTree};
ghost use Rattle.sh_tree.specs.Grammar.{IsLine, IsPipe, IsExec};
ghost use Rattle.sh_tree.specs.Reading.{may_follow_command, may_follow_pipe, may_follow_backs, may_follow_line, FirstIs, FirstIsNot, MayBegin, MayBeginInside, MayBeginSimple, IsAfterPipe, Reads, IsBlockRest, Backs};
ghost use Rattle.sh_tree.specs.Tree.{tree_of};

use crate::automaton::check;
use crate::fault::ParseFault;
use crate::parts::{parse_redirections, parse_words};
use crate::tree::Cmd;
use sh_lexer::{Kind, Token, tokens};
use std::alloc::{AllocError, Allocator};

// The tokens after the first, if that is of the kind.
fn after_kind(tokens: &[Token], kind: Kind) -> Option<&[Token]>
    ensures { MatchOption result (FirstIsNot kind tokens.now) (λ rest. FirstIs kind tokens.now rest.now) }
{
    let (first, rest) = tokens.split_first()?;
    if first.kind == kind { Some(rest) } else { None }
}

// A pipe with each `&` after it, and the tokens after those.
fn parse_backs<'t, A: Allocator + Copy>(
    alloc: A,
    pipe: Cmd<A>,
    tokens: &'t [Token],
) -> Result<(Cmd<A>, &'t [Token]), AllocError>
    ensures { IfOk result (λ r. (line : List ℕ) → IsAfterPipe line tokens.now → Reads (Backs (tree_of pipe)) may_follow_backs line tokens.now r.1.now (tree_of r.0)) }
{
    let mut command = pipe;
    let mut rest = tokens;
    while let Some(after) = after_kind(rest, Kind::Amp) {
        command = Cmd::Back(Box::new(alloc, command)?);
        rest = after;
    }
    Ok((command, rest))
}

// `user/sh.c`'s `parseline`.
#[cycle(parser)]
fn parse_line<'t, A: Allocator + Copy>(
    alloc: A,
    line: &[u8],
    tokens: &'t [Token],
) -> Result<(Cmd<A>, &'t [Token]), AllocError>
    requires { MayBegin line.now tokens.now }
    ensures { IfOk result (λ r. Reads IsLine may_follow_line line.now tokens.now r.1.now (tree_of r.0)) }
{
    let (pipe, past_pipe) = parse_pipe(alloc, line, tokens)?;
    let (left, rest) = parse_backs(alloc, pipe, past_pipe)?;
    let Some(after) = after_kind(rest, Kind::Semi) else {
        return Ok((left, rest));
    };
    let (right, past_line) = parse_line(alloc, line, after)?;
    Ok((
        Cmd::List(Box::new(alloc, left)?, Box::new(alloc, right)?),
        past_line,
    ))
}

// `user/sh.c`'s `parsepipe`.
#[cycle(parser)]
fn parse_pipe<'t, A: Allocator + Copy>(
    alloc: A,
    line: &[u8],
    tokens: &'t [Token],
) -> Result<(Cmd<A>, &'t [Token]), AllocError>
    requires { MayBegin line.now tokens.now }
    ensures { IfOk result (λ r. Reads IsPipe may_follow_pipe line.now tokens.now r.1.now (tree_of r.0)) }
{
    let (left, rest) = parse_exec(alloc, line, tokens)?;
    let Some(after) = after_kind(rest, Kind::Bar) else {
        return Ok((left, rest));
    };
    let (right, past_pipe) = parse_pipe(alloc, line, after)?;
    Ok((
        Cmd::Pipe(Box::new(alloc, left)?, Box::new(alloc, right)?),
        past_pipe,
    ))
}

// `user/sh.c`'s `parseexec`.
#[cycle(parser)]
fn parse_exec<'t, A: Allocator + Copy>(
    alloc: A,
    line: &[u8],
    tokens: &'t [Token],
) -> Result<(Cmd<A>, &'t [Token]), AllocError>
    requires { MayBegin line.now tokens.now }
    ensures { IfOk result (λ r. Reads IsExec may_follow_command line.now tokens.now r.1.now (tree_of r.0)) }
{
    match after_kind(tokens, Kind::LeftParen) {
        Some(inside) => parse_block(alloc, line, inside),
        None => parse_simple(alloc, line, tokens),
    }
}

// A block after its left parenthesis (`user/sh.c`'s `parseblock`).
#[cycle(parser)]
fn parse_block<'t, A: Allocator + Copy>(
    alloc: A,
    line: &[u8],
    inside: &'t [Token],
) -> Result<(Cmd<A>, &'t [Token]), AllocError>
    requires { MayBeginInside line.now inside.now }
    ensures { IfOk result (λ r. Reads IsBlockRest may_follow_command line.now inside.now r.1.now (tree_of r.0)) }
{
    let (body, rest) = parse_line(alloc, line, inside)?;
    let Some(after) = after_kind(rest, Kind::RightParen) else {
        unreachable!()
    };
    parse_redirections(alloc, line, body, after)
}

// A simple command: its words, and then the redirections among them.
fn parse_simple<'t, A: Allocator + Copy>(
    alloc: A,
    line: &[u8],
    tokens: &'t [Token],
) -> Result<(Cmd<A>, &'t [Token]), AllocError>
    requires { MayBeginSimple line.now tokens.now }
    ensures { IfOk result (λ r. Reads IsExec may_follow_command line.now tokens.now r.1.now (tree_of r.0)) }
{
    let words = parse_words(alloc, line, tokens)?;
    parse_redirections(alloc, line, Cmd::Exec(words), tokens)
}

/// The tree of a line (`user/sh.c`'s `parsecmd`), or why it has none.
///
/// Every line has exactly one tree or exactly one fault other than `Memory`, whatever its bytes:
/// `ParseFault` says which fault it is and where. `Memory` is returned only where the allocator
/// refuses memory, and then in place of either.
///
/// A fault is found with no recursion, so a faulty line may be of any length and depth. To make a
/// tree, `parse` recurses as deep as parentheses nest and as many `;` and `|` follow one another,
/// and `copy_in`, `same` and the drop of a tree recurse as deep as the tree is high. A line of at
/// most 511 bytes nests at most 255 deep and makes a tree at most 511 high. Of longer lines 5,000
/// nested parentheses and rows of 10,000 `;` or `&` were tried on a stack of 8 MiB as LLVM builds
/// it, and 1,000 of each without optimisation; 10,000 nested parentheses overflowed it.
pub fn parse<A: Allocator + Copy>(alloc: A, line: &[u8]) -> Result<Cmd<A>, ParseFault>
    ensures tree { IfOk result (λ tree. HasTree line.now (tree_of tree)) }
    ensures fault { IfErr result (HasFault line.now) }
{
    let all = tokens(alloc, line)?;
    let list = all.as_slice();
    check(line, list)?;
    let (tree, _) = parse_line(alloc, line, list)?;
    Ok(tree)
}
