//! How many bytes a simple command writes at most.
ghost use Rattle.std.specs.Prelude.{◌+◌, ℕ, length, map};
ghost use Rattle.mem_files.specs.Files.{files};
ghost use Rattle.prog_parts.specs.Words.{words_files_read, words_use_input};
ghost use Rattle.script_load.specs.Line.{line_of};
ghost use Rattle.meaning_model.specs.Programs.{echo_out};
ghost use Rattle.tree_model.specs.FilesAhead.{all_sizes};
ghost use Rattle.tree_model.specs.Bound.{input_ahead};
ghost use Rattle.tree_model.specs.ProgramBytes.{begin_bytes};
ghost use Rattle.room_model.specs.Place.{words_bytes};
ghost use Rattle.room_bounds.specs.CappedGrowth.{IsCapped};
ghost use Rattle.room_bounds.specs.Growth.{grown_where};

use crate::capped_growth::{capped, sum, times};
use crate::grown::{Grown, sizes_of};
use prog_parts::{Program, words_read, words_use_input};
use sh_lexer::Bytes;
use std::alloc::Allocator;
use user_calls::BLOCK_SIZE;

// How many bytes `echo` writes: its arguments, and a space or an LF behind each.
fn echo_bytes<A: Allocator>(arguments: &[Bytes<A>]) -> Option<u64>
    ensures { IsCapped (length (echo_out arguments.now)) result }
{
    let Some((argument, later)) = arguments.split_first() else {
        return Some(0);
    };
    sum(
        capped(argument.as_slice().len() as u64 + 1),
        echo_bytes(later),
    )
}

// How many bytes the program writes that reads so many. What `echo` and `wc` write doesn't depend on these.
fn program_bytes<A: Allocator>(
    program: Program,
    arguments: &[Bytes<A>],
    reads: Option<u64>,
) -> Option<u64>
    ensures { (n : ℕ) → IsCapped n reads → IsCapped (begin_bytes program arguments.now n) result }
{
    let inputs = arguments.len() as u64 + 1;
    match program {
        Program::Cat | Program::Grep | Program::Head => reads,
        Program::Echo => echo_bytes(arguments),
        Program::Tee => times(reads, inputs),
        Program::Wc => times(Some(BLOCK_SIZE as u64), inputs),
    }
}

// The input, if it is read.
fn input_ahead(uses: bool, input: Option<u64>) -> Option<u64>
    ensures { (n : ℕ) → IsCapped n input → IsCapped (input_ahead uses n) result }
{
    if uses { input } else { Some(0) }
}

// How many bytes a simple command reads at most: its input, if it reads that, and the files that it names to read.
fn reads_ahead<A: Allocator, B: Allocator>(
    words: &[Bytes<A>],
    input: Option<u64>,
    grown: &Grown<A, B>,
) -> Option<u64>
    ensures { (n : ℕ) → IsCapped n input → IsCapped (input_ahead (words_use_input words.now) n + all_sizes (words_files_read words.now) (grown_where (map line_of grown.now.lines.now) (files grown.now.files.now) grown.now.more)) result }
{
    sum(
        input_ahead(words_use_input(words), input),
        sizes_of(words_read(words), grown),
    )
}

/// How many bytes a simple command writes at most on so many bytes of input. One whose first word names no program, or which has no
/// words, writes nothing.
pub fn words_bytes<A: Allocator, B: Allocator>(
    words: &[Bytes<A>],
    input: Option<u64>,
    grown: &Grown<A, B>,
) -> Option<u64>
    ensures { (n : ℕ) → IsCapped n input → IsCapped (words_bytes words.now n (grown_where (map line_of grown.now.lines.now) (files grown.now.files.now) grown.now.more)) result }
{
    let Some((name, arguments)) = words.split_first() else {
        return Some(0);
    };
    match Program::named(name.as_slice()) {
        Some(program) => program_bytes(program, arguments, reads_ahead(words, input, grown)),
        None => Some(0),
    }
}
