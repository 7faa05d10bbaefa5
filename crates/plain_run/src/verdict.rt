//! What of a run may depend on the order in which processes run.
ghost use Rattle.std.specs.Prelude.{◌≡◌, ◌++◌, ◌||◌, ◌&&◌, [], false, OnOk, IfOk};
ghost use Rattle.std.specs.List.{filter};
ghost use Rattle.std.specs.Str.{bytes_eq};
ghost use Rattle.sh_tree.specs.Tree.{tree_of};
ghost use Rattle.conflict_check.specs.Names.{names, uses_input};
ghost use Rattle.conflict_check.specs.Occurrences.{written};
ghost use Rattle.plain_run.specs.Tells.{all_again, only_if, with_lost};

use conflict_check::{names_it, uses_input};
use prog_parts::words_written;
use sh_lexer::Bytes;
use sh_tree::{Cmd, Mode};
use std::alloc::{AllocError, Allocator};

#[derive(Drop)]
pub struct Verdict<A: Allocator> {
    // Names that the left sides of cut pipes write and that are named again.
    pub again: Vec<Bytes<A>, A>,
    // After a command that is loose another one uses the same input.
    pub reuses: bool,
    // What is left unread of standard input may depend on it.
    pub is_loose: bool,
    // Names of files whose bytes may depend on it.
    pub soft: Vec<Bytes<A>, A>,
}

// A side of a pipe or a list, with the verdict of its run.
#[derive(Drop)]
pub struct Side<'t, A: Allocator, B: Allocator> {
    pub tree: &'t Cmd<B>,
    pub verdict: Verdict<A>,
}

// Adds words to a list.
fn add_words<A: Allocator + Copy, B: Allocator>(
    alloc: A,
    words: &[Bytes<B>],
    names: &mut Vec<Bytes<A>, A>,
) -> Result<(), AllocError>
    ensures { OnOk result (names.new.items ≡ names.old.items ++ words.now) }
{
    for word in words {
        names.push(Bytes::copy_of(alloc, word.as_slice())?)?;
    }
    Ok(())
}

// Adds the names that a tree writes to a list.
fn add_written<A: Allocator + Copy, B: Allocator>(
    alloc: A,
    tree: &Cmd<B>,
    names: &mut Vec<Bytes<A>, A>,
) -> Result<(), AllocError>
    ensures { OnOk result (names.new.items ≡ names.old.items ++ written (tree_of tree.now)) }
{
    match tree {
        Cmd::Exec(words) => add_words(alloc, words_written(words.as_slice()), names),
        Cmd::Redir {
            mode: Mode::Input,
            body,
            ..
        } => add_written(alloc, body, names),
        Cmd::Redir { name, body, .. } => {
            names.push(Bytes::copy_of(alloc, name.as_slice())?)?;
            add_written(alloc, body, names)
        }
        Cmd::Pipe(left, right) | Cmd::List(left, right) => {
            add_written(alloc, left, names)?;
            add_written(alloc, right, names)
        }
        Cmd::Back(body) => add_written(alloc, body, names),
    }
}

// Adds the names that the left side of a pipe writes, if the pipe is cut.
fn add_lost<A: Allocator + Copy, B: Allocator>(
    alloc: A,
    is_cut: bool,
    left: &Cmd<B>,
    names: &mut Vec<Bytes<A>, A>,
) -> Result<(), AllocError>
    ensures { OnOk result (names.new.items ≡ with_lost is_cut names.old.items (tree_of left.now)) }
{
    if is_cut {
        add_written(alloc, left, names)
    } else {
        Ok(())
    }
}

// Adds a word to a list, if it is one of those that are meant.
fn add_if<A: Allocator + Copy>(
    alloc: A,
    is_meant: bool,
    word: &[u8],
    list: &mut Vec<Bytes<A>, A>,
) -> Result<(), AllocError>
    ensures { OnOk result (list.new.items ≡ list.old.items ++ only_if is_meant word.now) }
{
    if is_meant {
        list.push(Bytes::copy_of(alloc, word)?)?;
    }
    Ok(())
}

// Adds those of the words that the tree names to a list.
fn add_named<A: Allocator + Copy, B: Allocator>(
    alloc: A,
    words: &[Bytes<A>],
    tree: &Cmd<B>,
    list: &mut Vec<Bytes<A>, A>,
) -> Result<(), AllocError>
    ensures { OnOk result (list.new.items ≡ list.old.items ++ filter (names (tree_of tree.now)) words.now) }
{
    for word in words {
        let is_named = names_it(tree, word.as_slice());
        add_if(alloc, is_named, word.as_slice(), list)?;
    }
    Ok(())
}

// Adds those of the words that are this name to a list.
fn add_same<A: Allocator + Copy>(
    alloc: A,
    words: &[Bytes<A>],
    name: &[u8],
    list: &mut Vec<Bytes<A>, A>,
) -> Result<(), AllocError>
    ensures { OnOk result (list.new.items ≡ list.old.items ++ filter (λ word. bytes_eq word name.now) words.now) }
{
    for word in words {
        let is_same = word.as_slice() == name;
        add_if(alloc, is_same, word.as_slice(), list)?;
    }
    Ok(())
}

// The names of one list and of the other.
pub fn joined<A: Allocator>(
    mut first: Vec<Bytes<A>, A>,
    mut second: Vec<Bytes<A>, A>,
) -> Result<Vec<Bytes<A>, A>, AllocError>
    ensures { IfOk result (λ both. both.items ≡ first.items ++ second.items) }
{
    if first.is_empty() {
        return Ok(second);
    }
    first.append(&mut second)?;
    Ok(first)
}

impl<A: Allocator + Copy> Verdict<A> {
    // Of what depends on no order.
    pub fn firm(alloc: A) -> Self
        ensures again { result.again.items ≡ [] }
        ensures reuses { result.reuses ≡ false }
        ensures loose { result.is_loose ≡ false }
        ensures soft { result.soft.items ≡ [] }
    {
        Verdict {
            again: Vec::new(alloc),
            reuses: false,
            is_loose: false,
            soft: Vec::new(alloc),
        }
    }

    // Under a redirection of its output to this file.
    pub fn into_file(self, alloc: A, name: &[u8]) -> Result<Self, AllocError>
        ensures again { IfOk result (λ all. all.again.items ≡ self.again.items ++ filter (λ word. bytes_eq word name.now) self.soft.items) }
        ensures reuses { IfOk result (λ all. all.reuses ≡ self.reuses) }
        ensures loose { IfOk result (λ all. all.is_loose ≡ self.is_loose) }
        ensures soft { IfOk result (λ all. all.soft.items ≡ self.soft.items) }
    {
        let mut again = self.again;
        add_same(alloc, self.soft.as_slice(), name, &mut again)?;
        Ok(Verdict {
            again,
            reuses: self.reuses,
            is_loose: self.is_loose,
            soft: self.soft,
        })
    }

    // The same of a command whose rest of the input depends on the order or does not, as is said here.
    pub fn with_looseness(self, is_loose: bool) -> Self
        ensures again { result.again.items ≡ self.again.items }
        ensures reuses { result.reuses ≡ self.reuses }
        ensures loose { result.is_loose ≡ is_loose }
        ensures soft { result.soft.items ≡ self.soft.items }
    {
        Verdict {
            again: self.again,
            reuses: self.reuses,
            is_loose,
            soft: self.soft,
        }
    }

    // Of one command and then another.
    pub fn of_list<B: Allocator>(
        alloc: A,
        left: Side<'_, A, B>,
        right: Side<'_, A, B>,
    ) -> Result<Self, AllocError>
        ensures again { IfOk result (λ both. both.again.items ≡ all_again (tree_of left.entry.tree.now) left.entry.verdict.again.items left.entry.verdict.soft.items (tree_of right.entry.tree.now) right.entry.verdict.again.items right.entry.verdict.soft.items) }
        ensures reuses { IfOk result (λ both. both.reuses ≡ ((left.entry.verdict.reuses || right.entry.verdict.reuses) || (left.entry.verdict.is_loose && uses_input (tree_of right.entry.tree.now)))) }
        ensures loose { IfOk result (λ both. both.is_loose ≡ (left.entry.verdict.is_loose || right.entry.verdict.is_loose)) }
        ensures soft { IfOk result (λ both. both.soft.items ≡ left.entry.verdict.soft.items ++ right.entry.verdict.soft.items) }
    {
        let first = left.verdict;
        let second = right.verdict;
        let mut again = joined(first.again, second.again)?;
        add_named(alloc, first.soft.as_slice(), right.tree, &mut again)?;
        add_named(alloc, second.soft.as_slice(), left.tree, &mut again)?;
        Ok(Verdict {
            again,
            reuses: first.reuses || second.reuses || first.is_loose && uses_input(right.tree),
            is_loose: first.is_loose || second.is_loose,
            soft: joined(first.soft, second.soft)?,
        })
    }

    // Of a pipe, which is cut or not.
    pub fn of_pipe<B: Allocator>(
        alloc: A,
        is_cut: bool,
        left: Side<'_, A, B>,
        right: Side<'_, A, B>,
    ) -> Result<Self, AllocError>
        ensures again { IfOk result (λ both. both.again.items ≡ all_again (tree_of left.entry.tree.now) left.entry.verdict.again.items (with_lost is_cut left.entry.verdict.soft.items (tree_of left.entry.tree.now)) (tree_of right.entry.tree.now) right.entry.verdict.again.items right.entry.verdict.soft.items) }
        ensures reuses { IfOk result (λ both. both.reuses ≡ (left.entry.verdict.reuses || right.entry.verdict.reuses)) }
        ensures loose { IfOk result (λ both. both.is_loose ≡ (left.entry.verdict.is_loose || (is_cut && uses_input (tree_of left.entry.tree.now)))) }
        ensures soft { IfOk result (λ both. both.soft.items ≡ with_lost is_cut left.entry.verdict.soft.items (tree_of left.entry.tree.now) ++ right.entry.verdict.soft.items) }
    {
        let mut first = left.verdict;
        let second = right.verdict;
        add_lost(alloc, is_cut, left.tree, &mut first.soft)?;
        let mut again = joined(first.again, second.again)?;
        add_named(alloc, first.soft.as_slice(), right.tree, &mut again)?;
        add_named(alloc, second.soft.as_slice(), left.tree, &mut again)?;
        Ok(Verdict {
            again,
            reuses: first.reuses || second.reuses,
            is_loose: first.is_loose || is_cut && uses_input(left.tree),
            soft: joined(first.soft, second.soft)?,
        })
    }
}
