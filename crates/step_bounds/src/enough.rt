//! How many turns are enough.
ghost use Rattle.std.specs.Prelude.{◌≡◌, ◌+◌, ◌<◌, ◌≤◌, IfNone, IfSome};
ghost use Rattle.mem_files.specs.Files.{files};
ghost use Rattle.script_load.specs.Line.{lines_of};
ghost use Rattle.script_load.specs.declared.limits.TheConstants.{MAX_TURNS};
ghost use Rattle.step_bounds.specs.Most.{most_events};

use crate::steps::most_steps;
use mem_files::Files;
use script_load::{MAX_TURNS, Script};
use std::alloc::Allocator;

/// As many turns as are enough for a run of the script with this standard input and these files, whatever its schedule: two
/// more than its most events, `most_events`. `None` where they are more than a run may have (own).
///
/// That they are enough is the law `so_many_turns_are_enough` of `law_runs`, of clear scripts without `&`. They are far more
/// than a run takes. Takes no memory.
pub fn turns_enough<A: Allocator, B: Allocator>(
    script: &Script<A>,
    stdin: &[u8],
    store: &Files<B>,
) -> Option<u64>
    ensures some { IfSome result (λ turns. turns ≡ most_events (lines_of script.now.lines) stdin.now (files store.now) + 2) }
    ensures within { IfSome result (λ turns. turns ≤ MAX_TURNS) }
    ensures none { IfNone result (MAX_TURNS < most_events (lines_of script.now.lines) stdin.now (files store.now) + 2) }
{
    let steps = most_steps(script, stdin, store)?;
    let turns = 192 + 260 * (15 * steps) + 2;
    if turns <= MAX_TURNS {
        Some(turns)
    } else {
        None
    }
}
