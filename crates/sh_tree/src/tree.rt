//! Trees of commands.

ghost use Rattle.std.specs.Prelude.{◌≡◌, ◌↔◌, IsTrue, IfOk};
ghost use Rattle.sh_tree.specs.Tree.{tree_of};

use crate::words::Words;
use sh_lexer::Bytes;
use std::alloc::{AllocError, Allocator};

/// How a redirection opens its file (`user/sh.c`'s `parseredirs`).
#[derive(Clone, Copy, Debug, PartialEq, Eq)]
pub enum Mode {
    /// `<`: the file is read.
    Input,
    /// `>`: the file is emptied, and then written.
    Fresh,
    /// `>>`: the file is written from its beginning, and keeps the bytes past the written ones.
    Over,
}

/// A command, as `user/sh.c`'s `struct cmd`, over any allocator.
#[derive(Drop)]
pub enum Cmd<A: Allocator> {
    /// A program's name and its arguments. `parse` gives nine words at most, and may give none.
    Exec(Words<A>),
    /// The body with a descriptor opened on the file `name`. Of several redirections of one
    /// command the last in the text is outermost.
    Redir {
        mode: Mode,
        name: Bytes<A>,
        body: Box<Cmd<A>, A>,
    },
    /// `left | right`
    Pipe(Box<Cmd<A>, A>, Box<Cmd<A>, A>),
    /// `left ; right`
    List(Box<Cmd<A>, A>, Box<Cmd<A>, A>),
    /// `body &`
    Back(Box<Cmd<A>, A>),
}

/// Whether two commands are equal, whatever allocators hold them (own).
///
/// Takes no memory. It recurses as deep as the lesser tree is high.
pub fn same<A: Allocator, B: Allocator>(left: &Cmd<A>, right: &Cmd<B>) -> bool
    ensures { IsTrue result ↔ (tree_of left.now ≡ tree_of right.now) }
{
    match (left, right) {
        (Cmd::Exec(words), Cmd::Exec(others)) => words.is_same(others),
        (
            Cmd::Redir { mode, name, body },
            Cmd::Redir {
                mode: other_mode,
                name: other_name,
                body: other_body,
            },
        ) => {
            *mode == *other_mode
                && name.as_slice() == other_name.as_slice()
                && same(body, other_body)
        }
        (Cmd::Pipe(first, second), Cmd::Pipe(third, fourth)) => {
            same(first, third) && same(second, fourth)
        }
        (Cmd::List(first, second), Cmd::List(third, fourth)) => {
            same(first, third) && same(second, fourth)
        }
        (Cmd::Back(body), Cmd::Back(other_body)) => same(body, other_body),
        _ => false,
    }
}

/// An equal command whose memory is of another allocator, as one out of an arena (own).
///
/// `AllocError` where that allocator refuses memory; what was copied is then dropped. It recurses as
/// deep as the tree is high.
pub fn copy_in<A: Allocator + Copy, B: Allocator>(
    tree: &Cmd<B>,
    alloc: A,
) -> Result<Cmd<A>, AllocError>
    ensures { IfOk result (λ copy. tree_of copy ≡ tree_of tree.now) }
{
    match tree {
        Cmd::Exec(words) => Ok(Cmd::Exec(words.copy_in(alloc)?)),
        Cmd::Redir { mode, name, body } => Ok(Cmd::Redir {
            mode: *mode,
            name: Bytes::copy_of(alloc, name.as_slice())?,
            body: Box::new(alloc, copy_in(body, alloc)?)?,
        }),
        Cmd::Pipe(left, right) => Ok(Cmd::Pipe(
            Box::new(alloc, copy_in(left, alloc)?)?,
            Box::new(alloc, copy_in(right, alloc)?)?,
        )),
        Cmd::List(left, right) => Ok(Cmd::List(
            Box::new(alloc, copy_in(left, alloc)?)?,
            Box::new(alloc, copy_in(right, alloc)?)?,
        )),
        Cmd::Back(body) => Ok(Cmd::Back(Box::new(alloc, copy_in(body, alloc)?)?)),
    }
}
