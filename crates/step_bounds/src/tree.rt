//! The cost of a command, by recursion on its tree.
ghost use Rattle.std.specs.Prelude.{◌≡◌, ◌≤◌};
ghost use Rattle.sh_tree.specs.Tree.{tree_of};
ghost use Rattle.script_load.specs.Line.{line_of};
ghost use Rattle.meaning_model.specs.Meaning.{line_tree};
ghost use Rattle.tree_model.specs.Bound.{input_under};
ghost use Rattle.step_bounds.specs.Cost.{IsCostOf};
ghost use Rattle.step_bounds.specs.declared.capped.TheConstants.{MAX_STEPS};

use crate::adding::{both, cost_of, redirected};
use crate::capped::plus;
use crate::cost::Cost;
use crate::program::{exec_cost, size_of};
use mem_files::Files;
use script_load::Line;
use sh_tree::{Cmd, Mode};
use std::alloc::Allocator;

/// The input of a redirection's body: the file under `<`.
pub fn input_under(mode: Mode, input: u64, size: u64) -> u64
    ensures { result ≡ input_under mode input size }
{
    match mode {
        Mode::Input => size,
        Mode::Fresh | Mode::Over => input,
    }
}

// The cost of a command on so many bytes of input, where files have grown by so many bytes.
fn tree_cost<A: Allocator, B: Allocator>(
    tree: &Cmd<A>,
    input: u64,
    files: &Files<B>,
    grown: u64,
) -> Option<Cost>
    requires { grown ≤ MAX_STEPS }
    ensures { IsCostOf (tree_of tree.now) input files.now grown result }
{
    match tree {
        Cmd::Exec(words) => exec_cost(words.as_slice(), input, files, grown),
        Cmd::Redir { mode, name, body } => {
            let size = size_of(name.as_slice(), files, grown);
            redirected(tree_cost(body, input_under(*mode, input, size), files, grown))
        }
        Cmd::Pipe(left, right) => match tree_cost(left, input, files, grown) {
            Some(first) => both(first, tree_cost(right, first.bytes, files, grown)),
            None => None,
        },
        Cmd::List(left, right) => match tree_cost(left, input, files, grown) {
            Some(first) => match plus(grown, first.bytes) {
                Some(grown) => both(first, tree_cost(right, input, files, grown)),
                None => None,
            },
            None => None,
        },
        Cmd::Back(_) => cost_of(0, 0),
    }
}

// The same of a line: one that is no command costs what one without words does.
pub fn line_cost<A: Allocator, B: Allocator>(
    line: &Line<A>,
    input: u64,
    files: &Files<B>,
    grown: u64,
) -> Option<Cost>
    requires { grown ≤ MAX_STEPS }
    ensures { IsCostOf (line_tree (line_of line.now)) input files.now grown result }
{
    match line {
        Line::Tree(tree) => tree_cost(tree, input, files, grown),
        Line::Bad(..) | Line::Cd(_) => cost_of(0, 1),
    }
}
