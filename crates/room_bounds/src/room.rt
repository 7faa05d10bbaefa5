//! What a script needs of each table at most, and whether that is there.
ghost use Rattle.std.specs.Prelude.{◌+◌, ℕ, List};
ghost use Rattle.mem_files.specs.Name.{Name, Bytes};
ghost use Rattle.script_load.specs.Line.{ScriptLine, lines_of};
ghost use Rattle.step_bounds.specs.Cost.{IsCapped as IsFew};
ghost use Rattle.room_bounds.specs.Capped.{IsCapped};
ghost use Rattle.room_bounds.specs.Given.{IsGiven};
ghost use Rattle.room_bounds.specs.Needs.{IsNeedOfLines};
ghost use Rattle.room_bounds.specs.Room.{IsRoom};

use crate::beginning::{Beginning, all_lines};
use crate::capped::{capped, one_more, sum_with};
use crate::given::{Given, given_of};
use mem_files::Files;
use script_load::Script;
use std::alloc::Allocator;

/// What a script needs at most, in whatever order its processes go on; each `None` where it is more than 1,000,000 (own).
#[derive(Clone, Copy, Debug)]
pub struct Room {
    /// Processes at once, with `init` and the top shell.
    pub processes: Option<u64>,
    /// Open-file entries at once, with those of the standard input, the standard output and the diagnostics.
    pub entries: Option<u64>,
    /// Descriptors of one process at once.
    pub descriptors: Option<u64>,
    /// Files: those that are there, and one for each place that names a file that is written.
    pub files: Option<u64>,
    /// Bytes of a file: as many as the largest has that is there, and all that the script writes.
    pub size: Option<u64>,
}

// The size of the largest file, and so many bytes more.
fn size_with(largest: u64, written: Option<u64>) -> Option<u64>
    ensures { (n : ℕ) → IsFew n written → IsCapped (largest + n) result }
{
    match written {
        Some(written) => match largest.checked_add(written) {
            Some(size) => capped(size),
            None => None,
        },
        None => None,
    }
}

/// What a script of some lines needs, by what they need, on these files.
pub fn room_with(lines: Beginning, given: Given) -> Room
    ensures { (script : List ScriptLine) (input : Bytes) (files : List (Name × Bytes)) → IsNeedOfLines script input files lines → IsGiven files given → IsRoom script input files result }
{
    let needs = lines.needs;
    Room {
        processes: one_more(needs.processes),
        entries: sum_with(3, Some(0), needs.entries),
        descriptors: needs.descriptors,
        files: sum_with(0, capped(given.count), needs.names),
        size: size_with(given.largest, lines.written),
    }
}

/// What a script needs at most on this standard input and these files, in whatever order its processes go on. Of the input and the
/// files only the sizes count, and which names have files.
///
/// That nothing but memory is ever full where this is within xv6's tables is the law `nothing_but_memory_is_full` of `law_runs`, of
/// clear scripts. Takes no memory, and time linear in the script, but for its files, each of which is looked up once for each place
/// that names it. It recurses as deep as the highest tree of the script is high.
pub fn room_of<A: Allocator, B: Allocator>(
    script: &Script<A>,
    stdin: &[u8],
    store: &Files<B>,
) -> Room
    ensures { IsRoom (lines_of script.now.lines) stdin.now store.now result }
{
    room_with(
        all_lines(script.lines.as_slice(), stdin, store),
        given_of(store),
    )
}
