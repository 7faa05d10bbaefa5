//! Files that have grown.
ghost use Rattle.std.specs.Prelude.{◌≡◌, map};
ghost use Rattle.sh_tree.specs.Tree.{tree_of};
ghost use Rattle.mem_files.specs.Files.{files};
ghost use Rattle.prog_parts.specs.NameSets.{among};
ghost use Rattle.script_load.specs.Line.{line_of};
ghost use Rattle.meaning_model.specs.Meaning.{line_tree};
ghost use Rattle.tree_model.specs.FilesAhead.{all_sizes, sizes};
ghost use Rattle.room_model.specs.Files.{names_written};
ghost use Rattle.room_model.specs.Place.{counted_if};
ghost use Rattle.room_bounds.specs.CappedGrowth.{IsCapped};
ghost use Rattle.room_bounds.specs.Growth.{grown_where, is_written};

use crate::capped_growth::{capped, sum};
use conflict_check::writes_it;
use mem_files::Files;
use script_load::Line;
use sh_lexer::Bytes;
use std::alloc::Allocator;

/// The files of a script of these lines, where each that it writes has grown by so many bytes.
#[derive(Drop)]
pub struct Grown<'t, A: Allocator, B: Allocator> {
    pub lines: &'t [Line<A>],
    pub files: &'t Files<B>,
    pub more: u64,
}

// Whether a line writes a file of this name.
fn line_writes<A: Allocator>(line: &Line<A>, name: &[u8]) -> bool
    ensures { result ≡ among (names_written (line_tree (line_of line.now))) name.now }
{
    match line {
        Line::Tree(tree) => writes_it(tree, name),
        Line::Bad(..) | Line::Cd(_) => false,
    }
}

// Whether one of these lines does.
fn is_written<A: Allocator>(lines: &[Line<A>], name: &[u8]) -> bool
    ensures { result ≡ is_written (map line_of lines.now) name.now }
{
    for line in lines {
        if line_writes(line, name) {
            return true;
        }
    }
    false
}

// The size of the file of this name as it is, 0 where there is none.
fn size_now<B: Allocator>(name: &[u8], store: &Files<B>) -> u64
    ensures { result ≡ sizes (files store.now) name.now }
{
    match store.get(name) {
        Some(bytes) => bytes.len() as u64,
        None => 0,
    }
}

// By how many bytes it has grown.
fn more_of<A: Allocator, B: Allocator>(name: &[u8], grown: &Grown<A, B>) -> u64
    ensures { result ≡ counted_if (is_written (map line_of grown.now.lines.now) name.now) grown.now.more }
{
    if is_written(grown.lines, name) {
        grown.more
    } else {
        0
    }
}

/// The size of the file of this name, 0 where there is none, with what it has grown by.
pub fn size_of<A: Allocator, B: Allocator>(name: &[u8], grown: &Grown<A, B>) -> Option<u64>
    ensures { IsCapped (grown_where (map line_of grown.now.lines.now) (files grown.now.files.now) grown.now.more name.now) result }
{
    sum(
        capped(size_now(name, grown.files)),
        capped(more_of(name, grown)),
    )
}

/// All sizes of the files of these names.
pub fn sizes_of<A: Allocator, B: Allocator>(names: &[Bytes<A>], grown: &Grown<A, B>) -> Option<u64>
    ensures { IsCapped (all_sizes names.now (grown_where (map line_of grown.now.lines.now) (files grown.now.files.now) grown.now.more)) result }
{
    let Some((name, later)) = names.split_first() else {
        return Some(0);
    };
    sum(size_of(name.as_slice(), grown), sizes_of(later, grown))
}
