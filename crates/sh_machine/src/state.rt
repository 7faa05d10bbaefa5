//! The states of a shell from one call to the next.

ghost use Rattle.std.specs.Prelude.{◌≡◌, ◌↔◌, IsTrue};

use crate::naming::Naming;
use crate::node::Node;
use crate::rest::Rest;
use crate::says::Says;
use sh_tree::Mode;
use std::alloc::Allocator;
use user_progs::Start;

// How far the top shell is with the first of its lines.
#[derive(Clone, Copy, PartialEq, Eq)]
pub enum Phase {
    // Nothing was called.
    Starts,
    // A child was forked for it.
    Forks,
    // The child is waited for.
    Waits,
    // It was a line of `cd`, and a message was written.
    ToldCd,
}

// How far a child of a pipe is; the numbers are descriptors.
#[derive(Clone, Copy, PartialEq, Eq)]
pub enum Side {
    // Its standard descriptor is being closed, in whose place the first of these comes; the others are the read end and
    // the write end.
    Closes(usize, usize, usize),
    // Its end is being duplicated (`dup`).
    Dups(usize, usize),
    // The read end is being closed, and the write end, at this descriptor, comes later.
    ClosesReader(usize),
    ClosesWriter,
}

// How far the process is that makes a pipe.
#[derive(Drop)]
pub enum Parent<'t, A: Allocator, N: Naming> {
    // The pipe of these two sides is being made.
    Makes(Node<'t, A, N>, Node<'t, A, N>),
    // A child was forked for the left side; the pipe's read end and write end are at these descriptors.
    ForksWriter(Node<'t, A, N>, Node<'t, A, N>, usize, usize),
    // A child was forked for the right side.
    ForksReader(Node<'t, A, N>, usize, usize),
    // The read end is being closed, and the write end, at this descriptor, comes later.
    ClosesReader(usize),
    ClosesWriter,
    // The two children are waited for.
    WaitsFirst,
    WaitsSecond,
}

// Where a shell is. Each state waits for the reply to a call.
#[derive(Drop)]
pub enum At<'t, A: Allocator, N: Naming> {
    Top(Phase, Rest<'t, A, N>),
    // `Exec` was called for this name, which no program has.
    Unknown(&'t [u8]),
    // A redirection: its descriptor is being closed, and then its file opened.
    ClosesOld(Mode, &'t [u8], Node<'t, A, N>),
    OpensFile(&'t [u8], Node<'t, A, N>),
    // A list: a child was forked for the left side, which is waited for.
    ForksLeft(Node<'t, A, N>, Node<'t, A, N>),
    WaitsLeft(Node<'t, A, N>),
    Pipes(Parent<'t, A, N>),
    // A child of a pipe, which is to run this side.
    Side(Side, Node<'t, A, N>),
    // A command behind `&`: a child was forked for it.
    ForksBack(Node<'t, A, N>),
    // A message was written.
    Told,
    // `Exit` was called.
    Ended,
}

// What a shell goes on as.
#[derive(Drop)]
pub enum Next<'t, A: Allocator, N: Naming> {
    Stays(At<'t, A, N>),
    // A program that was found takes the process over.
    Becomes(Start<'t, A>),
}

// A call, and what waits for the reply to it.
#[derive(Drop)]
pub struct Turn<'t, A: Allocator, N: Naming> {
    pub call: Says<'t>,
    pub next: Next<'t, A, N>,
}

impl<'t, A: Allocator, N: Naming> Turn<'t, A, N> {
    ghost use Rattle.sh_machine.specs.Turn.{calls, exits, tells};
    ghost use Rattle.sh_machine.specs.View.{says_of, shell_of, turn_of};

    /// The machine that makes this call, and stands there.
    pub fn calls(call: Says<'t>, at: At<'t, A, N>) -> Self
        ensures { turn_of result ≡ calls (says_of call.entry) (shell_of at.entry) }
    {
        Turn {
            call,
            next: Next::Stays(at),
        }
    }

    /// The machine that exits.
    pub fn exits() -> Self
        ensures { turn_of result ≡ exits }
    {
        Turn::calls(Says::Exit, At::Ended)
    }

    // Writes a message to descriptor 2, and exits then.
    pub fn tells(message: &'static [u8]) -> Self
        ensures { turn_of result ≡ tells message.now }
    {
        Turn::calls(Says::Write(message), At::Told)
    }
}

impl<'t, A: Allocator, N: Naming> Parent<'t, A, N> {
    ghost use Rattle.sh_machine.specs.View.{parent_of};

    /// An equal one.
    pub fn twin(&self) -> Self
        ensures { parent_of result ≡ parent_of self.now }
    {
        match self {
            Parent::Makes(left, right) => Parent::Makes(left.twin(), right.twin()),
            Parent::ForksWriter(left, right, reader, writer) => Parent::ForksWriter(
                left.twin(),
                right.twin(),
                *reader,
                *writer,
            ),
            Parent::ForksReader(right, reader, writer) => Parent::ForksReader(
                right.twin(),
                *reader,
                *writer,
            ),
            Parent::ClosesReader(writer) => Parent::ClosesReader(*writer),
            Parent::ClosesWriter => Parent::ClosesWriter,
            Parent::WaitsFirst => Parent::WaitsFirst,
            Parent::WaitsSecond => Parent::WaitsSecond,
        }
    }

    /// Whether the two are equal.
    pub fn same(&self, other: &Self) -> bool
        ensures { IsTrue result ↔ (parent_of self.now ≡ parent_of other.now) }
    {
        match (self, other) {
            (Parent::Makes(left, right), Parent::Makes(other_left, other_right)) => {
                left.same(other_left) && right.same(other_right)
            }
            (
                Parent::ForksWriter(left, right, reader, writer),
                Parent::ForksWriter(other_left, other_right, other_reader, other_writer),
            ) => {
                reader == other_reader
                    && writer == other_writer
                    && left.same(other_left)
                    && right.same(other_right)
            }
            (
                Parent::ForksReader(right, reader, writer),
                Parent::ForksReader(other_right, other_reader, other_writer),
            ) => { reader == other_reader && writer == other_writer && right.same(other_right) }
            (Parent::ClosesReader(writer), Parent::ClosesReader(other_writer)) => {
                writer == other_writer
            }
            (Parent::ClosesWriter, Parent::ClosesWriter) => true,
            (Parent::WaitsFirst, Parent::WaitsFirst) => true,
            (Parent::WaitsSecond, Parent::WaitsSecond) => true,
            _ => false,
        }
    }
}

impl<'t, A: Allocator, N: Naming> At<'t, A, N> {
    ghost use Rattle.sh_machine.specs.View.{shell_of};

    /// An equal one.
    pub fn twin(&self) -> Self
        ensures { shell_of result ≡ shell_of self.now }
    {
        match self {
            At::Top(phase, rest) => At::Top(*phase, rest.twin()),
            At::Unknown(name) => At::Unknown(name),
            At::ClosesOld(mode, name, body) => At::ClosesOld(*mode, name, body.twin()),
            At::OpensFile(name, body) => At::OpensFile(name, body.twin()),
            At::ForksLeft(left, right) => At::ForksLeft(left.twin(), right.twin()),
            At::WaitsLeft(right) => At::WaitsLeft(right.twin()),
            At::Pipes(parent) => At::Pipes(parent.twin()),
            At::Side(side, tree) => At::Side(*side, tree.twin()),
            At::ForksBack(body) => At::ForksBack(body.twin()),
            At::Told => At::Told,
            At::Ended => At::Ended,
        }
    }

    // In constant time where the two are at one place of the script, but for a name, whose bytes are compared.
    pub fn same(&self, other: &Self) -> bool
        ensures { IsTrue result ↔ (shell_of self.now ≡ shell_of other.now) }
    {
        match (self, other) {
            (At::Top(phase, rest), At::Top(other_phase, other_rest)) => {
                phase == other_phase && rest.same(other_rest)
            }
            (At::Unknown(name), At::Unknown(other_name)) => *name == *other_name,
            (At::ClosesOld(mode, name, body), At::ClosesOld(other_mode, other_name, other_body)) =>
                { mode == other_mode && *name == *other_name && body.same(other_body) }
            (At::OpensFile(name, body), At::OpensFile(other_name, other_body)) => {
                *name == *other_name && body.same(other_body)
            }
            (At::ForksLeft(left, right), At::ForksLeft(other_left, other_right)) => {
                left.same(other_left) && right.same(other_right)
            }
            (At::WaitsLeft(right), At::WaitsLeft(other_right)) => right.same(other_right),
            (At::Pipes(parent), At::Pipes(other_parent)) => parent.same(other_parent),
            (At::Side(side, tree), At::Side(other_side, other_tree)) => {
                side == other_side && tree.same(other_tree)
            }
            (At::ForksBack(body), At::ForksBack(other_body)) => body.same(other_body),
            (At::Told, At::Told) => true,
            (At::Ended, At::Ended) => true,
            _ => false,
        }
    }
}
