//! The cost of a simple command.
ghost use Rattle.std.specs.Prelude.{◌≡◌, ◌<◌, ◌≤◌, ◌+◌, ◌*◌, ◌^◌, length};
ghost use Rattle.sh_tree.specs.Tree.{exec};
ghost use Rattle.meaning_model.specs.Programs.{echo_out};
ghost use Rattle.tree_model.specs.FilesAhead.{all_sizes};
ghost use Rattle.prog_parts.specs.Words.{words_files, words_use_input};
ghost use Rattle.tree_model.specs.Bound.{input_ahead};
ghost use Rattle.tree_model.specs.ProgramBytes.{begin_bytes};
ghost use Rattle.step_bounds.specs.declared.capped.TheConstants.{MAX_STEPS};
ghost use Rattle.step_bounds.specs.Cost.{IsCapped, IsCost, IsCostOf, sizes_grown};

use crate::adding::cost_of;
use crate::capped::{capped, plus, times};
use crate::cost::Cost;
use mem_files::Files;
use prog_parts::{Program, file_words, words_use_input};
use sh_lexer::Bytes;
use std::alloc::Allocator;
use user_calls::BLOCK_SIZE;

/// The size of the file of this name, 0 where there is none, grown by so many bytes.
pub fn size_of<B: Allocator>(name: &[u8], files: &Files<B>, grown: u64) -> u64
    requires { grown ≤ MAX_STEPS }
    ensures { result ≡ sizes_grown files.now grown name.now }
{
    match files.get(name) {
        Some(bytes) => bytes.len() as u64 + grown,
        None => grown,
    }
}

// All sizes of the files of these names.
fn sizes_of<A: Allocator, B: Allocator>(
    names: &[Bytes<A>],
    files: &Files<B>,
    grown: u64,
) -> Option<u64>
    requires { grown ≤ MAX_STEPS }
    ensures { IsCapped (all_sizes names.now (sizes_grown files.now grown)) result }
{
    let Some((name, later)) = names.split_first() else {
        return Some(0);
    };
    match sizes_of(later, files, grown) {
        Some(rest) => plus(size_of(name.as_slice(), files, grown), rest),
        None => None,
    }
}

// How many bytes `echo` writes: its arguments, and a space or an LF behind each.
fn echo_bytes<A: Allocator>(arguments: &[Bytes<A>]) -> Option<u64>
    ensures { IsCapped (length (echo_out arguments.now)) result }
{
    let Some((argument, later)) = arguments.split_first() else {
        return Some(0);
    };
    match echo_bytes(later) {
        Some(rest) => plus(argument.as_slice().len() as u64 + 1, rest),
        None => None,
    }
}

/// How many bytes the program writes that reads so many.
pub fn program_bytes<A: Allocator>(
    program: Program,
    arguments: &[Bytes<A>],
    reads: u64,
) -> Option<u64>
    ensures { IsCapped (begin_bytes program arguments.now reads) result }
{
    let inputs = arguments.len() as u64 + 1;
    match program {
        Program::Cat | Program::Grep | Program::Head => capped(reads),
        Program::Echo => echo_bytes(arguments),
        Program::Tee => times(reads, inputs),
        Program::Wc => times(BLOCK_SIZE as u64, inputs),
    }
}

// What is not bytes of its steps: calls of its own, and those that bytes pay for which it reads.
fn program_calls(arguments: u64, reads: u64) -> Option<u64>
    requires { arguments < 2 ^ 63 }
    ensures { IsCapped (10 + 4 * arguments + reads * (arguments + 2)) result }
{
    match (times(4, arguments), times(reads, arguments + 2)) {
        (Some(own), Some(paid)) => plus(own + 10, paid),
        _ => None,
    }
}

// The cost of a program that reads so many bytes.
fn program_cost<A: Allocator>(program: Program, arguments: &[Bytes<A>], reads: u64) -> Option<Cost>
    ensures { IsCost 0 (begin_bytes program arguments.now reads) (10 + 4 * length arguments.now + reads * (length arguments.now + 2) + begin_bytes program arguments.now reads) result }
{
    match (
        program_calls(arguments.len() as u64, reads),
        program_bytes(program, arguments, reads),
    ) {
        (Some(calls), Some(bytes)) => cost_of(bytes, calls + bytes),
        _ => None,
    }
}

/// How many bytes a simple command reads at most: its input, if it reads that, and its files.
pub fn reads_ahead<A: Allocator, B: Allocator>(
    words: &[Bytes<A>],
    input: u64,
    files: &Files<B>,
    grown: u64,
) -> Option<u64>
    requires { grown ≤ MAX_STEPS }
    ensures { IsCapped (input_ahead (words_use_input words.now) input + all_sizes (words_files words.now) (sizes_grown files.now grown)) result }
{
    let standard = if words_use_input(words) { input } else { 0 };
    match sizes_of(file_words(words), files, grown) {
        Some(ahead) => plus(standard, ahead),
        None => None,
    }
}

/// The cost of a simple command on so many bytes of input, where files have grown by so many bytes. One whose first word
/// names no program, or which has no words, is begun and does nothing.
pub fn exec_cost<A: Allocator, B: Allocator>(
    words: &[Bytes<A>],
    input: u64,
    files: &Files<B>,
    grown: u64,
) -> Option<Cost>
    requires { grown ≤ MAX_STEPS }
    ensures { IsCostOf (exec words.now) input files.now grown result }
{
    let Some((name, arguments)) = words.split_first() else {
        return cost_of(0, 1);
    };
    let Some(program) = Program::named(name.as_slice()) else {
        return cost_of(0, 1);
    };
    match reads_ahead(words, input, files, grown) {
        Some(reads) => program_cost(program, arguments, reads),
        None => None,
    }
}
