//! How many steps a script makes at most.
ghost use Rattle.std.specs.Prelude.{◌≡◌, ◌<◌, ◌≤◌, IfNone, IfSome, map};
ghost use Rattle.mem_files.specs.Files.{files};
ghost use Rattle.script_load.specs.Line.{line_of, lines_of};
ghost use Rattle.meaning_model.specs.Meaning.{script_tree};
ghost use Rattle.tree_model.specs.Bound.{most_steps};
ghost use Rattle.step_bounds.specs.Cost.{IsCostOf};
ghost use Rattle.step_bounds.specs.declared.capped.TheConstants.{MAX_STEPS};

use crate::adding::{both, cost_of};
use crate::cost::Cost;
use crate::tree::line_cost;
use mem_files::Files;
use script_load::{Line, Script};
use std::alloc::Allocator;

// The cost of these lines, and of the command without words that comes last.
fn script_cost<A: Allocator, B: Allocator>(
    lines: &[Line<A>],
    input: u64,
    files: &Files<B>,
) -> Option<Cost>
    ensures { IsCostOf (script_tree (map line_of lines.now)) input files.now 0 result }
{
    let mut so_far = Cost { bytes: 0, steps: 0 };
    for line in lines {
        match both(so_far, line_cost(line, input, files, so_far.bytes)) {
            Some(cost) => so_far = cost,
            None => return None,
        }
    }
    cost_of(so_far.bytes, so_far.steps + 1)
}

/// The most steps that the tree machine makes on the script, with this standard input and these files, in whatever order;
/// `None` where they are more than 1,000,000,000 (own). Of the input and the files only the sizes count.
///
/// Takes no memory, and time linear in the script, but for its files, each of which is looked up once for each place that
/// names it. It recurses as deep as the highest tree of the script is high.
pub fn most_steps<A: Allocator, B: Allocator>(
    script: &Script<A>,
    stdin: &[u8],
    store: &Files<B>,
) -> Option<u64>
    ensures some { IfSome result (λ steps. steps ≡ most_steps (lines_of script.now.lines) stdin.now (files store.now)) }
    ensures within { IfSome result (λ steps. steps ≤ MAX_STEPS) }
    ensures none { IfNone result (MAX_STEPS < most_steps (lines_of script.now.lines) stdin.now (files store.now)) }
{
    match script_cost(script.lines.as_slice(), stdin.len() as u64, store) {
        Some(cost) => Some(cost.steps),
        None => None,
    }
}
