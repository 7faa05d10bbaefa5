//! What is left of the slots, as a script's forks take them one by one.
ghost use Rattle.std.specs.Prelude.{◌↔◌, ◌+◌, ◌++◌, ◌∷◌, [], IsTrue, List, map};
ghost use Rattle.sh_tree.specs.Tree.{tree_of};
ghost use Rattle.script_load.specs.Line.{ScriptLine, line_of, lines_of};
ghost use Rattle.meaning_model.specs.Meaning.{line_tree, script_tree};
ghost use Rattle.room_model.specs.Forks.{HasFewForks, most_forks};
ghost use Rattle.room_model.specs.Left.{IsLeft};

use proc_table::PROCS;
use script_load::{Line, Script};
use sh_tree::Cmd;
use std::alloc::Allocator;

/// How many slots are free at a script's start, where init and the shell have theirs.
pub const MOST_FORKS: u64 = PROCS as u64 - 2;

// What is left of so many slots after all that a command forks.
fn tree_left<A: Allocator>(tree: &Cmd<A>, slots: u64) -> Option<u64>
    ensures { IsLeft slots (most_forks (tree_of tree.now)) result }
{
    match tree {
        Cmd::Exec(_) => Some(slots),
        Cmd::Redir { body, .. } => tree_left(body, slots),
        Cmd::Pipe(left, right) => tree_left(right, tree_left(left, slots.checked_sub(2)?)?),
        Cmd::List(left, right) => tree_left(right, tree_left(left, slots.checked_sub(1)?)?),
        Cmd::Back(body) => tree_left(body, slots.checked_sub(1)?),
    }
}

// After a line, whose own process takes a slot too.
fn line_left<A: Allocator>(line: &Line<A>, slots: u64) -> Option<u64>
    ensures { IsLeft slots (1 + most_forks (line_tree (line_of line.now))) result }
{
    let slots = slots.checked_sub(1)?;
    match line {
        Line::Tree(tree) => tree_left(tree, slots),
        Line::Bad(..) | Line::Cd(_) => Some(slots),
    }
}

// After some lines and one more.
fn left_with<A: Allocator>(so_far: Option<u64>, line: &Line<A>) -> Option<u64>
    ensures { (lines : List ScriptLine) → IsLeft MOST_FORKS (most_forks (script_tree lines)) so_far → IsLeft MOST_FORKS (most_forks (script_tree (lines ++ line_of line.now ∷ []))) result }
{
    line_left(line, so_far?)
}

// After all lines.
fn lines_left<A: Allocator>(lines: &[Line<A>]) -> Option<u64>
    ensures { IsLeft MOST_FORKS (most_forks (script_tree (map line_of lines.now))) result }
{
    let mut so_far = Some(MOST_FORKS);
    for line in lines {
        so_far = left_with(so_far, line);
    }
    so_far
}

/// Whether init, the shell and all processes that a script, with `&` or without, forks in all are no more than there are slots: two,
/// and one for each line, for each `;` and for each `&` in a line, and two for each `|`. Then each fork finds a free slot, in whatever
/// order its processes go on (a law of `law_limits`).
///
/// Takes no memory, and time linear in the script. It recurses as deep as the highest tree of the script is high.
pub fn has_few_forks<A: Allocator>(script: &Script<A>) -> bool
    ensures { IsTrue result ↔ HasFewForks (lines_of script.now.lines) }
{
    lines_left(script.lines.as_slice()).is_some()
}
