//! The pushdown automaton that takes the tokens of a line one by one, and refuses the first that
//! no line of the grammar has after those before it. Its stack is the number of open parentheses,
//! so a line of any length and depth is judged with no recursion and no memory.
ghost use Rattle.std.specs.Prelude.{◌≡◌, ◌<◌, ℕ, List, OnOk, IfErr};
ghost use Rattle.sh_tree.specs.Automaton.{after_command, step, ends_line, refusal, IsAccepted};
ghost use Rattle.sh_tree.specs.Fault.{StopsAt};
ghost use Rattle.sh_tree.specs.Lexeme.{lexeme_by, lexemes};

use crate::fault::ParseFault;
use sh_lexer::{Kind, Token};

/// What the automaton has read last (own).
#[derive(Clone, Copy, Debug, PartialEq, Eq)]
pub enum State {
    /// A command may begin.
    Begin,
    /// In a simple command, which may have this many more words.
    Simple(u8),
    /// After the sign of a redirection of a simple command, which may have this many more words.
    Target(u8),
    /// After a block and redirections of it.
    Closed,
    /// After the sign of a redirection of a block.
    ClosedTarget,
    /// After an `&`.
    Backed,
}

/// How many parentheses are open, and what was read last (own).
#[derive(Clone, Copy, Debug, PartialEq, Eq)]
pub struct Place {
    pub depth: usize,
    pub state: State,
}

fn make_place(depth: usize, state: State) -> Option<Place>
    ensures { result ≡ Some (record { depth = depth; state = state }) }
{
    Some(Place { depth, state })
}

// After a simple command or a block.
fn after_command(depth: usize, kind: Kind) -> Option<Place>
    ensures { (text : List ℕ) → result ≡ after_command depth (lexeme_by kind text) }
{
    match kind {
        Kind::Bar | Kind::Semi => make_place(depth, State::Begin),
        Kind::Amp => make_place(depth, State::Backed),
        Kind::RightParen if depth > 0 => make_place(depth - 1, State::Closed),
        _ => None,
    }
}

// The place after one more token.
fn step(from: Place, kind: Kind) -> Option<Place>
    requires { from.depth < usize.MAX }
    ensures { (text : List ℕ) → result ≡ step from.depth from.state (lexeme_by kind text) }
{
    let depth = from.depth;
    match from.state {
        State::Begin => match kind {
            Kind::Word => make_place(depth, State::Simple(8)),
            Kind::Less | Kind::More | Kind::MoreMore => make_place(depth, State::Target(9)),
            Kind::LeftParen => make_place(depth + 1, State::Begin),
            _ => after_command(depth, kind),
        },
        State::Simple(more) => match kind {
            Kind::Word if more > 0 => make_place(depth, State::Simple(more - 1)),
            Kind::Less | Kind::More | Kind::MoreMore => make_place(depth, State::Target(more)),
            _ => after_command(depth, kind),
        },
        State::Target(more) => match kind {
            Kind::Word => make_place(depth, State::Simple(more)),
            _ => None,
        },
        State::Closed => match kind {
            Kind::Less | Kind::More | Kind::MoreMore => make_place(depth, State::ClosedTarget),
            _ => after_command(depth, kind),
        },
        State::ClosedTarget => match kind {
            Kind::Word => make_place(depth, State::Closed),
            _ => None,
        },
        State::Backed => match kind {
            Kind::Bar => None,
            _ => after_command(depth, kind),
        },
    }
}

// Whether a line may end here, if no parenthesis is open.
fn ends_line(state: State) -> bool
    ensures { result ≡ ends_line state }
{
    !matches!(state, State::Target(_) | State::ClosedTarget)
}

// Why a token, or the end of the line, is refused at a place.
fn refusal(from: Place, next: Option<Kind>, at: usize) -> ParseFault
    ensures { result ≡ refusal from.depth from.state next at }
{
    match (from.state, next) {
        (State::Target(_) | State::ClosedTarget, _) => ParseFault::MissingFile(at),
        (State::Simple(0), Some(Kind::Word)) => ParseFault::TooManyWords(at),
        (State::Simple(_), Some(Kind::LeftParen)) => ParseFault::Unexpected(at),
        _ if from.depth > 0 => ParseFault::MissingParen(at),
        _ => ParseFault::Leftover(at),
    }
}

/// `Ok` where the tokens of the line are a line of the grammar, else where and why they stop being one (own;
/// the reasons are those of `user/sh.c`).
pub fn check(line: &[u8], tokens: &[Token]) -> Result<(), ParseFault>
    ensures accepted { OnOk result (IsAccepted 0 State.Begin (lexemes line.now tokens.now)) }
    ensures fault { IfErr result (StopsAt line.now tokens.now) }
{
    let mut from = Place {
        depth: 0,
        state: State::Begin,
    };
    for token in tokens {
        let Some(next) = step(from, token.kind) else {
            return Err(refusal(from, Some(token.kind), token.first));
        };
        from = next;
    }
    if from.depth > 0 || !ends_line(from.state) {
        return Err(refusal(from, None, line.len()));
    }
    Ok(())
}
