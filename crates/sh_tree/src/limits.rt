//! Whether a tree keeps within the limits of a script's lines.
ghost use Rattle.std.specs.Prelude.{◌≡◌};
ghost use Rattle.std.specs.List.{list_all};
ghost use Rattle.sh_tree.specs.Short.{has_few_words, is_short, is_short_tree};
ghost use Rattle.sh_tree.specs.Tree.{tree_of};

use crate::tree::Cmd;
use sh_lexer::Bytes;
use std::alloc::Allocator;

/// The most bytes of a word, a redirection's name or a line (own).
const MAX_TEXT: usize = 511;

/// The most words of a simple command (`user/sh.c`'s `MAXARGS` is 10, and the last ends the list).
const MAX_WORDS: usize = 9;

fn is_short_text(text: &[u8]) -> bool
    ensures { result ≡ is_short text.now }
{
    text.len() <= MAX_TEXT
}

fn are_short<A: Allocator>(words: &[Bytes<A>]) -> bool
    ensures { result ≡ list_all is_short words.now }
{
    words.iter().all(|word| is_short_text(word.as_slice()))
}

/// Whether every word and every redirection's name of a tree has at most 511 bytes, as those of a
/// script's lines do (own).
///
/// Takes no memory. It recurses as deep as the tree is high.
pub fn is_short<A: Allocator>(tree: &Cmd<A>) -> bool
    ensures { result ≡ is_short_tree (tree_of tree.now) }
{
    match tree {
        Cmd::Exec(words) => are_short(words.as_slice()),
        Cmd::Redir { name, body, .. } => is_short_text(name.as_slice()) && is_short(body),
        Cmd::Pipe(left, right) | Cmd::List(left, right) => is_short(left) && is_short(right),
        Cmd::Back(body) => is_short(body),
    }
}

/// Whether every simple command of a tree has at most nine words, as those that `parse` returns do
/// (`user/sh.c`'s `parseexec`).
///
/// Takes no memory. It recurses as deep as the tree is high.
pub fn has_few_words<A: Allocator>(tree: &Cmd<A>) -> bool
    ensures { result ≡ has_few_words (tree_of tree.now) }
{
    match tree {
        Cmd::Exec(words) => words.as_slice().len() <= MAX_WORDS,
        Cmd::Redir { body, .. } => has_few_words(body),
        Cmd::Pipe(left, right) | Cmd::List(left, right) => {
            has_few_words(left) && has_few_words(right)
        }
        Cmd::Back(body) => has_few_words(body),
    }
}
