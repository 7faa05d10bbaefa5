//! How many events a run may have.
ghost use Rattle.std.specs.Prelude.{◌↔◌, All, IsTrue};
ghost use Rattle.mem_files.specs.Files.{files};
ghost use Rattle.script_load.specs.Line.{lines_of};
ghost use Rattle.xvsh_runs.specs.Limit.{IsClearLine, IsLimitOf, IsOwnLimit};

use conflict_check::{clash, has_back};
use mem_files::Files;
use script_load::{Line, Script};
use std::alloc::Global;
use step_bounds::turns_enough;
use xvsh_read::Start;

/// The most events of a run for which no number is asked, if more aren't known to be enough (own).
pub const TURNS: u64 = 10_000_000;

// Whether no command of the line runs behind `&`, and its commands can't meet at a file.
fn is_clear_line(line: &Line<Global>) -> bool
    ensures { IsTrue result ↔ IsClearLine line.now }
{
    match line {
        Line::Tree(tree) => !has_back(tree) && clash(tree).is_none(),
        Line::Bad(..) | Line::Cd(_) => true,
    }
}

// Whether this is so of each line.
fn are_clear(lines: &[Line<Global>]) -> bool
    ensures { IsTrue result ↔ All IsClearLine lines.now }
{
    lines.iter().all(|line| is_clear_line(line))
}

// How many events a run may have for which no number is asked.
fn own_limit(script: &Script<Global>, stdin: &[u8], given: &Files<Global>) -> u64
    ensures { IsOwnLimit (lines_of script.now.lines) stdin.now (files given.now) result }
{
    if !are_clear(script.lines.as_slice()) {
        return TURNS;
    }
    match turns_enough(script, stdin, given) {
        Some(turns) => turns.max(TURNS),
        None => TURNS,
    }
}

/// How many events a run of what was read may have, of which so many are asked for, or none.
pub(crate) fn limit_of(asked: Option<u64>, start: &Start) -> u64
    ensures { IsLimitOf start.now asked result }
{
    match asked {
        Some(turns) => turns,
        None => own_limit(&start.script, start.stdin.as_slice(), &start.files),
    }
}
