//! By how many bytes each file that a script writes grows at most.
ghost use Rattle.std.specs.Prelude.{ℕ, ◌<◌, ◌≤◌, false, map, IfNone, IfSome};
ghost use Rattle.mem_files.specs.Files.{files};
ghost use Rattle.script_load.specs.Line.{line_of, lines_of};
ghost use Rattle.meaning_model.specs.Meaning.{script_tree};
ghost use Rattle.room_model.specs.Place.{to_place};
ghost use Rattle.room_bounds.specs.CappedGrowth.{IsCapped};
ghost use Rattle.room_bounds.specs.Growth.{IsGrowth, IsLeastGrowth, every_name, grown_where, to_files};
ghost use Rattle.room_bounds.specs.declared.capped_growth.TheConstants.{MAX_GROWTH};

use crate::capped_growth::{capped, sum};
use crate::grown::Grown;
use crate::written::line_written;
use mem_files::Files;
use script_load::Script;
use std::alloc::Allocator;

// How many bytes the lines write at most to files.
fn lines_to_files<A: Allocator, B: Allocator>(
    input: Option<u64>,
    grown: &Grown<A, B>,
) -> Option<u64>
    ensures { (n : ℕ) → IsCapped n input → IsCapped (to_place every_name false (script_tree (map line_of grown.now.lines.now)) n (grown_where (map line_of grown.now.lines.now) (files grown.now.files.now) grown.now.more)) result }
{
    let mut so_far = Some(0);
    for line in grown.lines {
        so_far = sum(so_far, line_written(line, input, grown).to_files);
    }
    so_far
}

// The same of a script, where the files that it writes have grown by so many bytes.
fn to_files_after<A: Allocator, B: Allocator>(
    script: &Script<A>,
    stdin: &[u8],
    store: &Files<B>,
    more: u64,
) -> Option<u64>
    ensures { IsCapped (to_files (lines_of script.now.lines) stdin.now (grown_where (lines_of script.now.lines) (files store.now) more)) result }
{
    let grown = Grown {
        lines: script.lines.as_slice(),
        files: store,
        more,
    };
    lines_to_files(capped(stdin.len() as u64), &grown)
}

/// By how many bytes each file that the script writes grows at most, with this standard input and these files, whatever the order of
/// its processes, also where commands clash or run behind `&`: the least number by which all may grow so that the script still writes
/// no more than it to all of them together. `None` where each such number is more than 1,000,000,000 (own), or there is none, as
/// where what is read of a file that the script writes goes to a file.
///
/// That by such a number no file is outgrown is the law `a_growth_keeps_within`. Takes no memory. It recurses as deep as the highest
/// tree of the script is high.
pub fn growth_of<A: Allocator, B: Allocator>(
    script: &Script<A>,
    stdin: &[u8],
    store: &Files<B>,
) -> Option<u64>
    ensures some { IfSome result (IsLeastGrowth (lines_of script.now.lines) stdin.now (files store.now)) }
    ensures within { IfSome result (λ more. more ≤ MAX_GROWTH) }
    ensures none { IfNone result ((other : ℕ) → IsGrowth (lines_of script.now.lines) stdin.now (files store.now) other → MAX_GROWTH < other) }
{
    let first = to_files_after(script, stdin, store, 0)?;
    // Where a byte more in files makes the script write more at all, it makes it write a byte more at least: so if this isn't enough,
    // nothing is.
    let second = to_files_after(script, stdin, store, first)?;
    if second <= first { Some(first) } else { None }
}
