//! What the lines of a script need at most, from its first line on.
ghost use Rattle.std.specs.Prelude.{[], ◌∷◌, ◌++◌, List, map};
ghost use Rattle.mem_files.specs.Name.{Name, Bytes};
ghost use Rattle.script_load.specs.Line.{ScriptLine, line_of};
ghost use Rattle.room_bounds.specs.Needs.{IsNeedOfLines, IsWritten};

use crate::needs::{Needs, line_needs, of_list, of_nothing};
use mem_files::Files;
use script_load::Line;
use std::alloc::Allocator;
use step_bounds::{MAX_STEPS, grown_after};

/// What some first lines of a script need, and how many bytes they write at most; `None` where that is more than 1,000,000,000.
#[derive(Clone, Copy)]
pub struct Beginning {
    pub needs: Needs,
    pub written: Option<u64>,
}

/// No lines.
pub fn no_lines() -> Beginning
    ensures { (input : Bytes) (files : List (Name × Bytes)) → IsNeedOfLines [] input files result }
{
    Beginning {
        needs: of_nothing(),
        written: Some(0),
    }
}

// How many bytes are written with one line more.
fn written_with<A: Allocator, B: Allocator>(
    written: Option<u64>,
    line: &Line<A>,
    stdin: &[u8],
    files: &Files<B>,
) -> Option<u64>
    ensures { (lines : List ScriptLine) → IsWritten lines stdin.now files.now written → IsWritten (lines ++ line_of line.now ∷ []) stdin.now files.now result }
{
    match written {
        Some(written) if written <= MAX_STEPS => {
            grown_after(line, stdin.len() as u64, files, written)
        }
        _ => None,
    }
}

/// These lines and one more, on this input and these files.
pub fn with_line<A: Allocator, B: Allocator>(
    before: Beginning,
    line: &Line<A>,
    stdin: &[u8],
    files: &Files<B>,
) -> Beginning
    ensures { (lines : List ScriptLine) → IsNeedOfLines lines stdin.now files.now before → IsNeedOfLines (lines ++ line_of line.now ∷ []) stdin.now files.now result }
{
    Beginning {
        needs: of_list(line_needs(line), before.needs),
        written: written_with(before.written, line, stdin, files),
    }
}

/// All lines.
pub fn all_lines<A: Allocator, B: Allocator>(
    lines: &[Line<A>],
    stdin: &[u8],
    files: &Files<B>,
) -> Beginning
    ensures { IsNeedOfLines (map line_of lines.now) stdin.now files.now result }
{
    let mut so_far = no_lines();
    for line in lines {
        so_far = with_line(so_far, line, stdin, files);
    }
    so_far
}
