//! Whether a script opens so little in all that each open finds an open-file entry.
ghost use Rattle.std.specs.Prelude.{◌↔◌, ◌++◌, ◌∷◌, [], IsTrue, List, map};
ghost use Rattle.sh_tree.specs.Tree.{tree_of};
ghost use Rattle.script_load.specs.Line.{ScriptLine, line_of, lines_of};
ghost use Rattle.meaning_model.specs.Meaning.{line_tree, script_tree};
ghost use Rattle.room_model.specs.Opens.{HasFewOpens, most_opens};
ghost use Rattle.room_bounds.specs.Capped.{IsCapped};

use crate::capped::{capped, one_more, sum_with};
use crate::table::MOST_ENTRIES;
use prog_parts::file_words;
use script_load::{Line, Script};
use sh_tree::Cmd;
use std::alloc::Allocator;

// How many entries a command comes to use in all at most.
fn tree_opens<A: Allocator>(tree: &Cmd<A>) -> Option<u64>
    ensures { IsCapped (most_opens (tree_of tree.now)) result }
{
    match tree {
        Cmd::Exec(words) => capped(file_words(words.as_slice()).len() as u64),
        Cmd::Redir { body, .. } => one_more(tree_opens(body)),
        Cmd::Pipe(left, right) => sum_with(2, tree_opens(left), tree_opens(right)),
        Cmd::List(left, right) => sum_with(0, tree_opens(left), tree_opens(right)),
        Cmd::Back(body) => tree_opens(body),
    }
}

// A line. One that is no command opens nothing.
fn line_opens<A: Allocator>(line: &Line<A>) -> Option<u64>
    ensures { IsCapped (most_opens (line_tree (line_of line.now))) result }
{
    match line {
        Line::Tree(tree) => tree_opens(tree),
        Line::Bad(..) | Line::Cd(_) => Some(0),
    }
}

/// Some lines and one more.
pub(crate) fn opens_with<A: Allocator>(so_far: Option<u64>, line: &Line<A>) -> Option<u64>
    ensures { (lines : List ScriptLine) → IsCapped (most_opens (script_tree lines)) so_far → IsCapped (most_opens (script_tree (lines ++ line_of line.now ∷ []))) result }
{
    sum_with(0, so_far, line_opens(line))
}

// All lines.
fn lines_opens<A: Allocator>(lines: &[Line<A>]) -> Option<u64>
    ensures { IsCapped (most_opens (script_tree (map line_of lines.now))) result }
{
    let mut so_far = Some(0);
    for line in lines {
        so_far = opens_with(so_far, line);
    }
    so_far
}

/// Whether a script, with `&` or without, comes to use no more open-file entries in all than there are: the three that its run begins
/// with, one for each redirection and for each file that a program names, and two for each pipe. Then whatever it opens finds a free
/// entry, in whatever order its processes go on (a law of `law_limits`).
///
/// Takes no memory, and time linear in the script. It recurses as deep as the highest tree of the script is high.
pub fn has_few_opens<A: Allocator>(script: &Script<A>) -> bool
    ensures { IsTrue result ↔ HasFewOpens (lines_of script.now.lines) }
{
    match lines_opens(script.lines.as_slice()) {
        Some(opens) => opens + 3 <= MOST_ENTRIES,
        None => false,
    }
}
