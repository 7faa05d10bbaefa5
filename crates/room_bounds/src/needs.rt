//! What a command needs at most, by recursion on its tree.
ghost use Rattle.std.specs.Prelude.{◌≡◌, [], List, length};
ghost use Rattle.sh_tree.specs.Tree.{Tree, exec, redir, pipe, list, back, tree_of};
ghost use Rattle.mem_files.specs.Name.{Name};
ghost use Rattle.script_load.specs.Line.{line_of};
ghost use Rattle.meaning_model.specs.Meaning.{line_tree};
ghost use Rattle.room_model.specs.Descriptors.{files_of_words};
ghost use Rattle.room_model.specs.Files.{and_written};
ghost use Rattle.room_bounds.specs.Capped.{IsCapped};
ghost use Rattle.room_bounds.specs.Needs.{AreNeeds};

use crate::capped::{capped, larger, one_more, sum_with};
use prog_parts::{Program, file_words, words_written};
use script_load::Line;
use sh_lexer::Bytes;
use sh_tree::{Cmd, Mode};
use std::alloc::Allocator;

/// What a command needs at most, with the process that runs it; each `None` where it is more than is reported.
#[derive(Clone, Copy)]
pub struct Needs {
    pub processes: Option<u64>,
    pub entries: Option<u64>,
    pub descriptors: Option<u64>,
    /// How often it names a file that it writes.
    pub names: Option<u64>,
}

// How many files a simple command holds open at once at most.
fn files_at_once<A: Allocator>(words: &[Bytes<A>]) -> u64
    ensures { result ≡ files_of_words words.now }
{
    let Some((name, arguments)) = words.split_first() else {
        return 0;
    };
    match Program::named(name.as_slice()) {
        Some(Program::Tee) => arguments.len() as u64,
        Some(Program::Cat | Program::Grep | Program::Head | Program::Wc) => {
            if file_words(words).is_empty() { 0 } else { 1 }
        }
        Some(Program::Echo) | None => 0,
    }
}

// A simple command.
fn of_words<A: Allocator>(words: &[Bytes<A>]) -> Needs
    ensures { AreNeeds (exec words.now) result }
{
    let files = capped(files_at_once(words));
    Needs {
        processes: Some(1),
        entries: files,
        descriptors: sum_with(3, Some(0), files),
        names: capped(words_written(words).len() as u64),
    }
}

/// A command without words.
pub fn of_nothing() -> Needs
    ensures { AreNeeds (exec []) result }
{
    Needs {
        processes: Some(1),
        entries: Some(0),
        descriptors: Some(3),
        names: Some(0),
    }
}

// How often a redirection names a file that it writes, by how often its body does.
fn names_under(mode: Mode, names: Option<u64>) -> Option<u64>
    ensures { (name : Name) (list : List Name) → IsCapped (length list) names → IsCapped (length (and_written mode name list)) result }
{
    match mode {
        Mode::Input => names,
        Mode::Fresh => one_more(names),
        Mode::Over => one_more(names),
    }
}

fn of_redir(mode: Mode, body: Needs) -> Needs
    ensures { (name : Name) (tree : Tree) → AreNeeds tree body → AreNeeds (redir mode name tree) result }
{
    Needs {
        processes: body.processes,
        entries: one_more(body.entries),
        descriptors: body.descriptors,
        names: names_under(mode, body.names),
    }
}

fn of_pipe(left: Needs, right: Needs) -> Needs
    ensures { (l r : Tree) → AreNeeds l left → AreNeeds r right → AreNeeds (pipe l r) result }
{
    Needs {
        processes: sum_with(1, left.processes, right.processes),
        entries: sum_with(2, left.entries, right.entries),
        descriptors: larger(Some(5), larger(left.descriptors, right.descriptors)),
        names: sum_with(0, left.names, right.names),
    }
}

/// A list.
pub fn of_list(left: Needs, right: Needs) -> Needs
    ensures { (l r : Tree) → AreNeeds l left → AreNeeds r right → AreNeeds (list l r) result }
{
    Needs {
        processes: larger(one_more(left.processes), right.processes),
        entries: larger(left.entries, right.entries),
        descriptors: larger(left.descriptors, right.descriptors),
        names: sum_with(0, left.names, right.names),
    }
}

fn of_back(body: Needs) -> Needs
    ensures { (tree : Tree) → AreNeeds tree body → AreNeeds (back tree) result }
{
    Needs {
        processes: one_more(body.processes),
        entries: body.entries,
        descriptors: body.descriptors,
        names: body.names,
    }
}

fn tree_needs<A: Allocator>(tree: &Cmd<A>) -> Needs
    ensures { AreNeeds (tree_of tree.now) result }
{
    match tree {
        Cmd::Exec(words) => of_words(words.as_slice()),
        Cmd::Redir { mode, body, .. } => of_redir(*mode, tree_needs(body)),
        Cmd::Pipe(left, right) => of_pipe(tree_needs(left), tree_needs(right)),
        Cmd::List(left, right) => of_list(tree_needs(left), tree_needs(right)),
        Cmd::Back(body) => of_back(tree_needs(body)),
    }
}

/// What a line needs. One that is no command needs what a command without words does.
pub fn line_needs<A: Allocator>(line: &Line<A>) -> Needs
    ensures { AreNeeds (line_tree (line_of line.now)) result }
{
    match line {
        Line::Tree(tree) => tree_needs(tree),
        Line::Bad(..) | Line::Cd(_) => of_nothing(),
    }
}
