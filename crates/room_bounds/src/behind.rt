//! What a script needs of processes, open-file entries and descriptors, also where commands run behind `&`.
ghost use Rattle.std.specs.Prelude.{[], ◌∷◌, ◌++◌, ℕ, List, map, IfNone, IfSome};
ghost use Rattle.sh_tree.specs.Tree.{Tree, exec, pipe, list, back, tree_of};
ghost use Rattle.script_load.specs.Line.{ScriptLine, line_of, lines_of};
ghost use Rattle.meaning_model.specs.Meaning.{line_tree, script_tree};
ghost use Rattle.room_bounds.specs.Behind.{AreTogether, FitsBehind, IsBegun, IsBehind, IsFirstBehind, IsNeedBehind};
ghost use Rattle.room_bounds.specs.Room.{IsTooMuch};

use crate::capped::{larger, one_more, sum, sum_with};
use crate::crowd::needs_after;
use crate::lack::{Lack, is_within};
use crate::needs::{Needs, of_nothing};
use crate::opens::opens_with;
use crate::table::Table;
use script_load::{Line, Script};
use sh_tree::Cmd;
use std::alloc::Allocator;

/// How many processes of a command there are at once at most, with the one that runs it, and how many of them may stay behind once
/// that was waited for; each `None` where it is more than is reported.
#[derive(Clone, Copy)]
pub struct Together {
    pub at_once: Option<u64>,
    pub behind: Option<u64>,
}

/// What some first lines of a script need.
#[derive(Clone, Copy)]
pub struct Begun {
    pub together: Together,
    /// How many open-file entries they come to use in all.
    pub opens: Option<u64>,
    pub needs: Needs,
}

/// How much a script needs at most of processes, of open-file entries and of descriptors, also where commands run behind `&`; each
/// `None` where it is more than 1,000,000.
#[derive(Clone, Copy, Debug)]
pub struct Behind {
    /// Processes at once, with init.
    pub processes: Option<u64>,
    /// Open-file entries in all, with the three that are open from the start: no more are ever in use at once.
    pub entries: Option<u64>,
    /// Descriptors of one process at once.
    pub descriptors: Option<u64>,
}

// A simple command.
fn alone() -> Together
    ensures { (words : List (List ℕ)) → AreTogether (exec words) result }
{
    Together {
        at_once: Some(1),
        behind: Some(0),
    }
}

// A command without words, as a line is that is no command.
fn no_command() -> Together
    ensures { AreTogether (exec []) result }
{
    alone()
}

fn of_pipe(left: Together, right: Together) -> Together
    ensures { (l r : Tree) → AreTogether l left → AreTogether r right → AreTogether (pipe l r) result }
{
    Together {
        at_once: sum_with(1, left.at_once, right.at_once),
        behind: sum(left.behind, right.behind),
    }
}

fn of_list(left: Together, right: Together) -> Together
    ensures { (l r : Tree) → AreTogether l left → AreTogether r right → AreTogether (list l r) result }
{
    Together {
        at_once: larger(one_more(left.at_once), sum(left.behind, right.at_once)),
        behind: sum(left.behind, right.behind),
    }
}

fn of_back(body: Together) -> Together
    ensures { (tree : Tree) → AreTogether tree body → AreTogether (back tree) result }
{
    Together {
        at_once: one_more(body.at_once),
        behind: body.at_once,
    }
}

fn tree_together<A: Allocator>(tree: &Cmd<A>) -> Together
    ensures { AreTogether (tree_of tree.now) result }
{
    match tree {
        Cmd::Exec(_) => alone(),
        Cmd::Redir { body, .. } => tree_together(body),
        Cmd::Pipe(left, right) => of_pipe(tree_together(left), tree_together(right)),
        Cmd::List(left, right) => of_list(tree_together(left), tree_together(right)),
        Cmd::Back(body) => of_back(tree_together(body)),
    }
}

fn line_together<A: Allocator>(line: &Line<A>) -> Together
    ensures { AreTogether (line_tree (line_of line.now)) result }
{
    match line {
        Line::Tree(tree) => tree_together(tree),
        Line::Bad(..) | Line::Cd(_) => no_command(),
    }
}

// Some lines and one more, which the top shell runs beside what they left behind.
fn and_line(before: Together, line: Together) -> Together
    ensures { (lines : List ScriptLine) (last : ScriptLine) → AreTogether (script_tree lines) before → AreTogether (line_tree last) line → AreTogether (script_tree (lines ++ last ∷ [])) result }
{
    Together {
        at_once: larger(before.at_once, sum_with(1, before.behind, line.at_once)),
        behind: sum(before.behind, line.behind),
    }
}

// No lines.
fn nothing_begun() -> Begun
    ensures { IsBegun [] result }
{
    Begun {
        together: no_command(),
        opens: Some(0),
        needs: of_nothing(),
    }
}

// Some lines with one more.
fn begun_with<A: Allocator>(before: Begun, line: &Line<A>) -> Begun
    ensures { (lines : List ScriptLine) → IsBegun lines before → IsBegun (lines ++ line_of line.now ∷ []) result }
{
    Begun {
        together: and_line(before.together, line_together(line)),
        opens: opens_with(before.opens, line),
        needs: needs_after(before.needs, line),
    }
}

// What a script of these lines needs.
fn behind_by(begun: Begun) -> Behind
    ensures { (lines : List ScriptLine) → IsBegun lines begun → IsBehind lines result }
{
    Behind {
        processes: one_more(begun.together.at_once),
        entries: sum_with(3, Some(0), begun.opens),
        descriptors: begun.needs.descriptors,
    }
}

fn behind_of_lines<A: Allocator>(lines: &[Line<A>]) -> Behind
    ensures { IsBehind (map line_of lines.now) result }
{
    let mut so_far = nothing_begun();
    for line in lines {
        so_far = begun_with(so_far, line);
    }
    behind_by(so_far)
}

/// How much a script needs at most of processes, of open-file entries and of descriptors, whatever its standard input and its files, in
/// whatever order its processes go on, also where commands run behind `&`. Of processes and descriptors it is what `room_of` returns where
/// there is no `&`; of entries it is all that the script comes to use, whether it is let go before or not.
///
/// That no run lacks one of them where this is within xv6's tables are the laws `no_run_is_out_of_processes`,
/// `no_run_is_out_of_open_files` and `no_run_is_out_of_descriptors` of `law_limits`. Takes no memory, and time linear in the script.
pub fn behind_of<A: Allocator>(script: &Script<A>) -> Behind
    ensures { IsBehind (lines_of script.now.lines) result }
{
    behind_of_lines(script.lines.as_slice())
}

// The first of processes and descriptors of which this is too much, with the need of it.
fn first_over(behind: &Behind) -> Option<(Table, Option<u64>)>
    ensures none { (lines : List ScriptLine) → IsBehind lines behind.now → IfNone result (FitsBehind lines) }
    ensures need { (lines : List ScriptLine) → IsBehind lines behind.now → IfSome result (λ over. IsNeedBehind over.0 lines over.1) }
    ensures much { IfSome result (λ over. IsTooMuch over.0 over.1) }
{
    if !is_within(behind.processes, Table::Processes) {
        Some((Table::Processes, behind.processes))
    } else if !is_within(behind.descriptors, Table::Descriptors) {
        Some((Table::Descriptors, behind.descriptors))
    } else {
        None
    }
}

// The first of these lines with which one of them may not have room.
fn first_behind_line<A: Allocator>(lines: &[Line<A>]) -> Option<Lack>
    ensures none { IfNone result (FitsBehind (map line_of lines.now)) }
    ensures some { IfSome result (IsFirstBehind (map line_of lines.now)) }
{
    let mut so_far = nothing_begun();
    for (i, line) in lines.iter().enumerate() {
        match first_over(&behind_by(so_far)) {
            Some((table, need)) => {
                return Some(Lack {
                    line: i,
                    table,
                    need,
                });
            }
            None => so_far = begun_with(so_far, line),
        }
    }
    match first_over(&behind_by(so_far)) {
        Some((table, need)) => Some(Lack {
            line: lines.len(),
            table,
            need,
        }),
        None => None,
    }
}

/// The first line of a script with which it may need more processes or descriptors than there are, and of which, also where commands
/// run behind `&`; `None` where it needs no more. Where with one line both may be too few, it is processes.
///
/// Takes no memory, and time linear in the script. It recurses as deep as the highest tree of the script is high.
pub fn first_behind<A: Allocator>(script: &Script<A>) -> Option<Lack>
    ensures none { IfNone result (FitsBehind (lines_of script.now.lines)) }
    ensures some { IfSome result (IsFirstBehind (lines_of script.now.lines)) }
{
    first_behind_line(script.lines.as_slice())
}
