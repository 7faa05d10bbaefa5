//! What a tree of commands names, writes and uses.
ghost use Rattle.std.specs.Prelude.{◌≡◌};
ghost use Rattle.sh_tree.specs.Tree.{tree_of};
ghost use Rattle.conflict_check.specs.Clear.{has_back};
ghost use Rattle.conflict_check.specs.Names.{names, reads, uses_input, writes};

use prog_parts::{file_words, is_among, words_read, words_use_input, words_written};
use sh_tree::{Cmd, Mode};
use std::alloc::Allocator;

/// Whether some `&` is in the tree (own).
///
/// Takes no memory, and time linear in the tree. It recurses as deep as the tree is high.
pub fn has_back<A: Allocator>(tree: &Cmd<A>) -> bool
    ensures { result ≡ has_back (tree_of tree.now) }
{
    match tree {
        Cmd::Exec(_) => false,
        Cmd::Redir { body, .. } => has_back(body),
        Cmd::Pipe(left, right) | Cmd::List(left, right) => has_back(left) || has_back(right),
        Cmd::Back(_) => true,
    }
}

/// Whether some program of the tree reads the tree's own standard input: `tee`, `cat` and `wc`
/// without arguments, `grep` with its pattern alone, and `head` without a file, unless it stands
/// under `<` or on the right of a pipe (own; `user/cat.c`, `user/grep.c` and `user/wc.c` read it so).
///
/// Takes no memory, and time linear in the tree. It recurses as deep as the tree is high.
pub fn uses_input<A: Allocator>(tree: &Cmd<A>) -> bool
    ensures { result ≡ uses_input (tree_of tree.now) }
{
    match tree {
        Cmd::Exec(words) => words_use_input(words.as_slice()),
        Cmd::Redir {
            mode: Mode::Input,
            ..
        } => false,
        Cmd::Redir { body, .. } => uses_input(body),
        Cmd::Pipe(left, _) => uses_input(left),
        Cmd::List(left, right) => uses_input(left) || uses_input(right),
        Cmd::Back(body) => uses_input(body),
    }
}

/// Whether the tree reads a file of this name by its text: under `<`, or as a file word of `cat`,
/// `grep`, `head` or `wc` (own). A name that can't be opened counts too.
///
/// Takes no memory, and time linear in the tree. It recurses as deep as the tree is high.
pub fn reads_it<A: Allocator>(tree: &Cmd<A>, name: &[u8]) -> bool
    ensures { result ≡ reads (tree_of tree.now) name.now }
{
    match tree {
        Cmd::Exec(words) => is_among(words_read(words.as_slice()), name),
        Cmd::Redir {
            mode: Mode::Input,
            name: file,
            body,
        } => name == file.as_slice() || reads_it(body, name),
        Cmd::Redir { body, .. } => reads_it(body, name),
        Cmd::Pipe(left, right) | Cmd::List(left, right) => {
            reads_it(left, name) || reads_it(right, name)
        }
        Cmd::Back(body) => reads_it(body, name),
    }
}

/// Whether the tree writes a file of this name by its text: under `>` or `>>`, or as a file word of
/// `tee` (own). A name that can't be opened counts too.
///
/// Takes no memory, and time linear in the tree. It recurses as deep as the tree is high.
pub fn writes_it<A: Allocator>(tree: &Cmd<A>, name: &[u8]) -> bool
    ensures { result ≡ writes (tree_of tree.now) name.now }
{
    match tree {
        Cmd::Exec(words) => is_among(words_written(words.as_slice()), name),
        Cmd::Redir {
            mode: Mode::Input,
            body,
            ..
        } => writes_it(body, name),
        Cmd::Redir {
            name: file,
            body,
            ..
        } => name == file.as_slice() || writes_it(body, name),
        Cmd::Pipe(left, right) | Cmd::List(left, right) => {
            writes_it(left, name) || writes_it(right, name)
        }
        Cmd::Back(body) => writes_it(body, name),
    }
}

/// Whether the tree names this file by its text, to read it or to write it (own).
///
/// Takes no memory, and time linear in the tree. It recurses as deep as the tree is high.
pub fn names_it<A: Allocator>(tree: &Cmd<A>, name: &[u8]) -> bool
    ensures { result ≡ names (tree_of tree.now) name.now }
{
    match tree {
        Cmd::Exec(words) => is_among(file_words(words.as_slice()), name),
        Cmd::Redir {
            name: file,
            body,
            ..
        } => name == file.as_slice() || names_it(body, name),
        Cmd::Pipe(left, right) | Cmd::List(left, right) => {
            names_it(left, name) || names_it(right, name)
        }
        Cmd::Back(body) => names_it(body, name),
    }
}
