//! Clashes: files at which commands of one tree may meet.
ghost use Rattle.std.specs.Prelude.{◌≡◌, ◌↔◌, IsNone, IfNone, IfSome, option_copied};
ghost use Rattle.std.specs.List.{find, list_any};
ghost use Rattle.sh_tree.specs.Tree.{tree_of};
ghost use Rattle.conflict_check.specs.Clash.{shared, IsFirstClash, IsFirstShared};
ghost use Rattle.conflict_check.specs.Clear.{is_touched, AreApart, IsClear};
ghost use Rattle.conflict_check.specs.Names.{names};
ghost use Rattle.conflict_check.specs.Occurrences.{occurrences, share_a_name, written};

use crate::conflict::{Clash, ClashKind};
use crate::questions::{names_it, reads_it, writes_it};
use prog_parts::{file_words, words_written};
use sh_lexer::Bytes;
use sh_tree::{Cmd, Mode};
use std::alloc::Allocator;

// Whether the body of a redirection names the file that this writes, or writes the one that it reads.
fn is_touched<A: Allocator>(mode: Mode, file: &[u8], body: &Cmd<A>) -> bool
    ensures { result ≡ is_touched mode file.now (tree_of body.now) }
{
    match mode {
        Mode::Input => writes_it(body, file),
        Mode::Fresh | Mode::Over => names_it(body, file),
    }
}

/// Whether one of these words is a name of the tree: one that it reads or writes by its text (own).
///
/// Takes no memory. It recurses as deep as the tree is high.
pub fn has_name_of<A: Allocator, B: Allocator>(words: &[Bytes<A>], tree: &Cmd<B>) -> bool
    ensures { result ≡ list_any (names (tree_of tree.now)) words.now }
{
    words.iter().any(|word| names_it(tree, word.as_slice()))
}

// Whether the writer writes a name of the other tree. Each name that is written is looked for in the
// other tree once.
fn writes_name_of<A: Allocator>(writer: &Cmd<A>, other: &Cmd<A>) -> bool
    ensures { result ≡ list_any (names (tree_of other.now)) (written (tree_of writer.now)) }
{
    match writer {
        Cmd::Exec(words) => has_name_of(words_written(words.as_slice()), other),
        Cmd::Redir {
            mode: Mode::Input,
            body,
            ..
        } => writes_name_of(body, other),
        Cmd::Redir { name, body, .. } => {
            names_it(other, name.as_slice()) || writes_name_of(body, other)
        }
        Cmd::Pipe(left, right) | Cmd::List(left, right) => {
            writes_name_of(left, other) || writes_name_of(right, other)
        }
        Cmd::Back(body) => writes_name_of(body, other),
    }
}

// Whether one side of a pipe writes a name of the other.
fn share_a_name<A: Allocator>(left: &Cmd<A>, right: &Cmd<A>) -> bool
    ensures { result ≡ share_a_name (tree_of left.now) (tree_of right.now) }
{
    writes_name_of(left, right) || writes_name_of(right, left)
}

// Whether the name clashes between the sides of a pipe.
fn is_shared<A: Allocator>(left: &Cmd<A>, right: &Cmd<A>, name: &[u8]) -> bool
    ensures { result ≡ shared (tree_of left.now) (tree_of right.now) name.now }
{
    writes_it(left, name) && names_it(right, name) || reads_it(left, name) && writes_it(right, name)
}

// The first of these words that clashes between the sides of a pipe.
fn first_shared_word<'t, A: Allocator>(
    words: &'t [Bytes<A>],
    left: &Cmd<A>,
    right: &Cmd<A>,
) -> Option<&'t Bytes<A>>
    ensures { option_copied result ≡ find (shared (tree_of left.now) (tree_of right.now)) words.now }
{
    words
        .iter()
        .find(|word| is_shared(left, right, word.as_slice()))
}

// The first name of a part that clashes between the sides of a pipe.
fn first_shared<'t, A: Allocator>(
    part: &'t Cmd<A>,
    left: &Cmd<A>,
    right: &Cmd<A>,
) -> Option<&'t [u8]>
    ensures { option_copied result ≡ find (shared (tree_of left.now) (tree_of right.now)) (occurrences (tree_of part.now)) }
{
    match part {
        Cmd::Exec(words) => {
            first_shared_word(file_words(words.as_slice()), left, right).map(|word| word.as_slice())
        }
        Cmd::Redir { name, body, .. } => {
            if is_shared(left, right, name.as_slice()) {
                Some(name.as_slice())
            } else {
                first_shared(body, left, right)
            }
        }
        Cmd::Pipe(first, second) | Cmd::List(first, second) => {
            match first_shared(first, left, right) {
                Some(name) => Some(name),
                None => first_shared(second, left, right),
            }
        }
        Cmd::Back(body) => first_shared(body, left, right),
    }
}

// The first name of the left side that clashes between the sides of a pipe. Where there is none, that
// is found by pairs of names, one of each side: so a whole tree without a clash takes quadratic time.
fn pipe_clash<'t, A: Allocator>(left: &'t Cmd<A>, right: &Cmd<A>) -> Option<&'t [u8]>
    ensures none { IfNone result (AreApart (tree_of left.now) (tree_of right.now)) }
    ensures some { IfSome result (λ name. IsFirstShared (tree_of left.now) (tree_of right.now) name.now) }
{
    if share_a_name(left, right) {
        first_shared(left, left, right)
    } else {
        None
    }
}

/// The first clash of a tree, or `None` where the tree is clear (own).
///
/// At a pipe a name clashes that one side writes and the other reads or writes; at a redirection to a
/// file, that file if the body reads or writes it; at a redirection from a file, that file if the
/// body writes it. All is judged by the text, so a name that can't be opened counts too.
///
/// A node's clash comes before those of its body, or of its left side, and these before those of its
/// right side. Of several names that clash at one pipe the first in the left side is returned,
/// whichever of its places there clashes: `n` for `(cat n m; echo a > n) | (cat n > m)`. A redirection's own
/// name comes before its body's, and the words of a simple command stand in the text's order.
///
/// Takes no memory, and time at most quadratic in the size of the tree: two places that name a file
/// are compared a few times, and only at the lowest node above both. The search for the first name
/// at a pipe that has a clash ends the whole search. It recurses as deep as the tree is high.
pub fn clash<A: Allocator>(tree: &Cmd<A>) -> Option<Clash<'_>>
    ensures none { IsNone result ↔ IsClear (tree_of tree.now) }
    ensures some { IfSome result (λ found. IsFirstClash (tree_of tree.now) found.kind found.name.now) }
{
    match tree {
        Cmd::Exec(_) => None,
        Cmd::Redir { mode, name, body } => {
            let name = name.as_slice();
            if is_touched(*mode, name, body) {
                let kind = ClashKind::Enclosing;
                Some(Clash { name, kind })
            } else {
                clash(body)
            }
        }
        Cmd::Pipe(left, right) => {
            if let Some(name) = pipe_clash(left, right) {
                let kind = ClashKind::PipeSides;
                Some(Clash { name, kind })
            } else {
                match clash(left) {
                    Some(found) => Some(found),
                    None => clash(right),
                }
            }
        }
        Cmd::List(left, right) => match clash(left) {
            Some(found) => Some(found),
            None => clash(right),
        },
        Cmd::Back(body) => clash(body),
    }
}
