//! By how many bytes files have grown at most, once a command has run.
ghost use Rattle.std.specs.Prelude.{◌≤◌, ℕ};
ghost use Rattle.sh_tree.specs.Tree.{exec, tree_of};
ghost use Rattle.script_load.specs.Line.{line_of};
ghost use Rattle.meaning_model.specs.Meaning.{line_tree};
ghost use Rattle.tree_model.specs.ProgramBytes.{begin_bytes};
ghost use Rattle.step_bounds.specs.Cost.{IsCapped, IsGrownBy};
ghost use Rattle.step_bounds.specs.declared.capped.TheConstants.{MAX_STEPS};

use crate::capped::plus;
use crate::program::{program_bytes, reads_ahead, size_of};
use crate::tree::input_under;
use mem_files::Files;
use prog_parts::Program;
use script_load::Line;
use sh_lexer::Bytes;
use sh_tree::Cmd;
use std::alloc::Allocator;

// How many bytes the program writes that reads so many. What `echo` and `wc` write doesn't depend on these.
fn bytes_of_reads<A: Allocator>(
    program: Program,
    arguments: &[Bytes<A>],
    reads: Option<u64>,
) -> Option<u64>
    ensures { (n : ℕ) → IsCapped n reads → IsCapped (begin_bytes program arguments.now n) result }
{
    match program {
        Program::Echo | Program::Wc => program_bytes(program, arguments, 0),
        Program::Cat | Program::Grep | Program::Head | Program::Tee => match reads {
            Some(reads) => program_bytes(program, arguments, reads),
            None => None,
        },
    }
}

// A simple command. One whose first word names no program, or which has no words, writes nothing.
fn exec_grown<A: Allocator, B: Allocator>(
    words: &[Bytes<A>],
    input: u64,
    files: &Files<B>,
    grown: u64,
) -> Option<u64>
    requires { grown ≤ MAX_STEPS }
    ensures { IsGrownBy (exec words.now) input files.now grown result }
{
    let Some((name, arguments)) = words.split_first() else {
        return Some(grown);
    };
    let Some(program) = Program::named(name.as_slice()) else {
        return Some(grown);
    };
    let reads = reads_ahead(words, input, files, grown);
    match bytes_of_reads(program, arguments, reads) {
        Some(bytes) => plus(grown, bytes),
        None => None,
    }
}

// A command on so many bytes of input, where files have grown by so many bytes.
fn tree_grown<A: Allocator, B: Allocator>(
    tree: &Cmd<A>,
    input: u64,
    files: &Files<B>,
    grown: u64,
) -> Option<u64>
    requires { grown ≤ MAX_STEPS }
    ensures { IsGrownBy (tree_of tree.now) input files.now grown result }
{
    match tree {
        Cmd::Exec(words) => exec_grown(words.as_slice(), input, files, grown),
        Cmd::Redir { mode, name, body } => {
            let size = size_of(name.as_slice(), files, grown);
            tree_grown(body, input_under(*mode, input, size), files, grown)
        }
        Cmd::Pipe(left, right) => match tree_grown(left, input, files, grown) {
            Some(first) => match tree_grown(right, first - grown, files, grown) {
                Some(second) => plus(first, second - grown),
                None => None,
            },
            None => None,
        },
        Cmd::List(left, right) => match tree_grown(left, input, files, grown) {
            Some(first) => tree_grown(right, input, files, first),
            None => None,
        },
        Cmd::Back(_) => Some(grown),
    }
}

/// By how many bytes files have grown at most once this line has run, in whatever order, on so many bytes of input, where they
/// have grown by so many before; `None` where that is more than 1,000,000,000 (own). What stands before a `&` doesn't count.
///
/// Takes no memory. It recurses as deep as the line's tree is high.
pub fn grown_after<A: Allocator, B: Allocator>(
    line: &Line<A>,
    input: u64,
    files: &Files<B>,
    grown: u64,
) -> Option<u64>
    requires { grown ≤ MAX_STEPS }
    ensures { IsGrownBy (line_tree (line_of line.now)) input files.now grown result }
{
    match line {
        Line::Tree(tree) => tree_grown(tree, input, files, grown),
        Line::Bad(..) | Line::Cd(_) => Some(grown),
    }
}
