//! What a process carries out.

use crate::text::{append_command, append_words};
use script_load::Line;
use sh_tree::{Cmd, Words};
use std::alloc::{AllocError, Global};
use user_calls::CallKind;

/// What kind of command a shell carries out.
#[derive(Clone, Copy, Debug, PartialEq, Eq)]
pub enum Node {
    /// The script: it is the first shell.
    Script,
    /// A program.
    Exec,
    /// A redirection.
    Redir,
    Pipe,
    List,
    /// A command behind `&`.
    Back,
    /// A line that is no command.
    Bad,
}

/// What a process carries out. Lines are counted from 1.
#[derive(Clone, Copy)]
pub enum Doing<'t> {
    /// It is init, or there is no process.
    Init,
    /// The whole script, of which this line is next.
    Script(usize),
    /// A line that is no command: its text, and its number.
    Bad(&'t [u8], usize),
    /// A command as a shell, in this line, after so many forks.
    Shell(&'t Cmd<Global>, usize, usize),
    /// A program, by its words, in this line.
    Program(&'t Words<Global>, usize),
}

impl<'t> Doing<'t> {
    /// The kind of command, of a shell.
    pub fn node(self) -> Option<Node> {
        match self {
            Doing::Init => None,
            Doing::Script(_) => Some(Node::Script),
            Doing::Bad(_, _) => Some(Node::Bad),
            Doing::Shell(tree, _, _) => Some(node_of(tree)),
            Doing::Program(_, _) => None,
        }
    }

    /// The number of the line, where it is known.
    pub fn line(self) -> Option<usize> {
        match self {
            Doing::Init | Doing::Script(_) => None,
            Doing::Bad(_, line) => Some(line),
            Doing::Shell(_, line, _) => Some(line),
            Doing::Program(_, line) => Some(line),
        }
    }

    /// `init`, `sh`, or the program's name.
    pub fn program(self) -> &'t [u8] {
        match self {
            Doing::Init => b"init".as_slice(),
            Doing::Program(words, _) => match words.as_slice().first() {
                Some(name) => name.as_slice(),
                None => &[],
            },
            Doing::Script(_) | Doing::Bad(_, _) | Doing::Shell(_, _, _) => b"sh".as_slice(),
        }
    }

    /// The words of the program that a shell calls by its next `Exec`, if that is what it does.
    pub fn words(self) -> Option<&'t Words<Global>> {
        match self {
            Doing::Shell(Cmd::Exec(words), _, _) => Some(words),
            _ => None,
        }
    }

    /// Adds the command as text, and returns whether there is one.
    pub fn append_text(self, text: &mut Vec<u8>) -> Result<bool, AllocError> {
        match self {
            Doing::Init | Doing::Script(_) => return Ok(false),
            Doing::Bad(line, _) => text.extend_from_slice(line)?,
            Doing::Shell(tree, _, _) => append_command(tree, text)?,
            Doing::Program(words, _) => append_words(words, text)?,
        }
        Ok(true)
    }

    // What a child does that it makes by a fork.
    pub(crate) fn child(self, lines: &'t [Line<Global>]) -> Doing<'t> {
        match self {
            Doing::Script(line) => of_line(lines, line),
            Doing::Shell(tree, line, forks) => Doing::Shell(forked(tree, forks), line, 0),
            other => other,
        }
    }

    // What it does after a call, by whether that was carried out, and not refused.
    pub(crate) fn after(self, lines: &[Line<Global>], call: CallKind, is_done: bool) -> Doing<'t> {
        match self {
            Doing::Script(line) => Doing::Script(after_line(lines, line, call, is_done)),
            Doing::Shell(tree, line, forks) if is_done => after_call(tree, line, forks, call),
            other => other,
        }
    }
}

fn node_of(tree: &Cmd<Global>) -> Node {
    match tree {
        Cmd::Exec(_) => Node::Exec,
        Cmd::Redir { .. } => Node::Redir,
        Cmd::Pipe(_, _) => Node::Pipe,
        Cmd::List(_, _) => Node::List,
        Cmd::Back(_) => Node::Back,
    }
}

// What the child of the first shell does for the line of this number.
fn of_line<'t>(lines: &'t [Line<Global>], line: usize) -> Doing<'t> {
    match lines.get(line.saturating_sub(1)) {
        Some(Line::Tree(tree)) => Doing::Shell(tree, line, 0),
        Some(Line::Bad(_, text)) => Doing::Bad(text.as_slice(), line),
        Some(Line::Cd(text)) => Doing::Bad(text.as_slice(), line),
        None => Doing::Script(line),
    }
}

// The command of a child that is made by the fork after so many others.
fn forked<'t>(tree: &'t Cmd<Global>, forks: usize) -> &'t Cmd<Global> {
    match tree {
        Cmd::Pipe(left, right) => { if forks == 0 { left } else { right } }
        Cmd::List(left, _) => left,
        Cmd::Back(body) => body,
        Cmd::Exec(_) | Cmd::Redir { .. } => tree,
    }
}

// The line that is next after a call of the first shell.
fn after_line(lines: &[Line<Global>], line: usize, call: CallKind, is_done: bool) -> usize {
    let is_over = match call {
        CallKind::Wait => is_done,
        CallKind::Write(_) => matches!(lines.get(line.saturating_sub(1)), Some(Line::Cd(_))),
        _ => false,
    };
    if is_over {
        line.saturating_add(1)
    } else {
        line
    }
}

// What a shell does after a call that was carried out.
fn after_call<'t>(tree: &'t Cmd<Global>, line: usize, forks: usize, call: CallKind) -> Doing<'t> {
    match (tree, call) {
        (Cmd::Exec(words), CallKind::Exec(true)) => Doing::Program(words, line),
        (Cmd::Redir { body, .. }, CallKind::OpenFile(_)) => Doing::Shell(body, line, 0),
        (Cmd::List(_, right), CallKind::Wait) => Doing::Shell(right, line, 0),
        (_, CallKind::Fork) => Doing::Shell(tree, line, forks.saturating_add(1)),
        _ => Doing::Shell(tree, line, forks),
    }
}
