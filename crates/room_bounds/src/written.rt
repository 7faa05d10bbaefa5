//! What a command writes at most to files, to its output and to both, by recursion on its tree.
ghost use Rattle.std.specs.Prelude.{◌≡◌, [], ℕ, true, map};
ghost use Rattle.std.specs.List.{list_any};
ghost use Rattle.sh_tree.specs.Tree.{Tree, exec, redir, pipe, list, tree_of};
ghost use Rattle.mem_files.specs.Name.{Name};
ghost use Rattle.mem_files.specs.Files.{files};
ghost use Rattle.prog_parts.specs.Words.{words_files_written};
ghost use Rattle.script_load.specs.Line.{line_of};
ghost use Rattle.meaning_model.specs.Meaning.{line_tree};
ghost use Rattle.tree_model.specs.FilesAhead.{Sizes};
ghost use Rattle.prog_parts.specs.NameSets.{no_names};
ghost use Rattle.tree_model.specs.Bound.{input_under};
ghost use Rattle.room_model.specs.Place.{counted_if, to_place};
ghost use Rattle.room_bounds.specs.CappedGrowth.{IsCapped};
ghost use Rattle.room_bounds.specs.Growth.{every_name, grown_where};
ghost use Rattle.room_bounds.specs.Written.{AreWritten};

use crate::capped_growth::sum;
use crate::grown::{Grown, size_of};
use crate::program::words_bytes;
use prog_parts::words_written;
use script_load::Line;
use sh_lexer::Bytes;
use sh_tree::{Cmd, Mode};
use std::alloc::Allocator;

/// How many bytes a command writes at most, each `None` where it is more than is reported. A simple command counts whole for a place
/// to which it writes at all, so `to_both` may be less than the sum of the others.
#[derive(Clone, Copy)]
pub struct Written {
    pub to_files: Option<u64>,
    pub to_output: Option<u64>,
    pub to_both: Option<u64>,
}

// Whether a simple command writes a file at all.
fn writes_files<A: Allocator>(words: &[Bytes<A>]) -> bool
    ensures { result ≡ list_any every_name (words_files_written words.now) }
{
    !words_written(words).is_empty()
}

// So many, where they count.
fn counted_if(counts: bool, bytes: Option<u64>) -> Option<u64>
    ensures { (n : ℕ) → IsCapped n bytes → IsCapped (counted_if counts n) result }
{
    if counts { bytes } else { Some(0) }
}

// A simple command.
fn of_words<A: Allocator, B: Allocator>(
    words: &[Bytes<A>],
    input: Option<u64>,
    grown: &Grown<A, B>,
) -> Written
    ensures { (n : ℕ) → IsCapped n input → AreWritten (exec words.now) n (grown_where (map line_of grown.now.lines.now) (files grown.now.files.now) grown.now.more) result }
{
    let bytes = words_bytes(words, input, grown);
    Written {
        to_files: counted_if(writes_files(words), bytes),
        to_output: bytes,
        to_both: bytes,
    }
}

// A command without words.
fn of_nothing() -> Written
    ensures { (n : ℕ) (L : Sizes) → AreWritten (exec []) n L result }
{
    Written {
        to_files: Some(0),
        to_output: Some(0),
        to_both: Some(0),
    }
}

// The input of a redirection's body: the file under `<`.
fn input_under(mode: Mode, input: Option<u64>, size: Option<u64>) -> Option<u64>
    ensures { (n m : ℕ) → IsCapped n input → IsCapped m size → IsCapped (input_under mode n m) result }
{
    match mode {
        Mode::Input => size,
        Mode::Fresh | Mode::Over => input,
    }
}

// A redirection. Behind `>` and `>>` the output is a file.
fn of_redir(mode: Mode, body: Written) -> Written
    ensures { (name : Name) (tree : Tree) (n : ℕ) (L : Sizes) → AreWritten tree (input_under mode n (L name)) L body → AreWritten (redir mode name tree) n L result }
{
    match mode {
        Mode::Input => body,
        Mode::Fresh | Mode::Over => Written {
            to_files: body.to_both,
            to_output: Some(0),
            to_both: body.to_both,
        },
    }
}

// A pipe, whose right side reads what the left side writes to its output.
fn of_pipe(left: Written, right: Written) -> Written
    ensures { (l r : Tree) (n : ℕ) (L : Sizes) → AreWritten l n L left → AreWritten r (to_place no_names true l n L) L right → AreWritten (pipe l r) n L result }
{
    Written {
        to_files: sum(left.to_files, right.to_files),
        to_output: right.to_output,
        to_both: sum(left.to_files, right.to_both),
    }
}

fn of_list(left: Written, right: Written) -> Written
    ensures { (l r : Tree) (n : ℕ) (L : Sizes) → AreWritten l n L left → AreWritten r n L right → AreWritten (list l r) n L result }
{
    Written {
        to_files: sum(left.to_files, right.to_files),
        to_output: sum(left.to_output, right.to_output),
        to_both: sum(left.to_both, right.to_both),
    }
}

fn tree_written<A: Allocator, B: Allocator>(
    tree: &Cmd<A>,
    input: Option<u64>,
    grown: &Grown<A, B>,
) -> Written
    ensures { (n : ℕ) → IsCapped n input → AreWritten (tree_of tree.now) n (grown_where (map line_of grown.now.lines.now) (files grown.now.files.now) grown.now.more) result }
{
    match tree {
        Cmd::Exec(words) => of_words(words.as_slice(), input, grown),
        Cmd::Redir { mode, name, body } => {
            let size = size_of(name.as_slice(), grown);
            of_redir(
                *mode,
                tree_written(body, input_under(*mode, input, size), grown),
            )
        }
        Cmd::Pipe(left, right) => {
            let left = tree_written(left, input, grown);
            of_pipe(left, tree_written(right, left.to_output, grown))
        }
        Cmd::List(left, right) => of_list(
            tree_written(left, input, grown),
            tree_written(right, input, grown),
        ),
        Cmd::Back(body) => tree_written(body, input, grown),
    }
}

/// What a line writes at most. One that is no command writes nothing.
pub fn line_written<A: Allocator, B: Allocator>(
    line: &Line<A>,
    input: Option<u64>,
    grown: &Grown<A, B>,
) -> Written
    ensures { (n : ℕ) → IsCapped n input → AreWritten (line_tree (line_of line.now)) n (grown_where (map line_of grown.now.lines.now) (files grown.now.files.now) grown.now.more) result }
{
    match line {
        Line::Tree(tree) => tree_written(tree, input, grown),
        Line::Bad(..) | Line::Cd(_) => of_nothing(),
    }
}
