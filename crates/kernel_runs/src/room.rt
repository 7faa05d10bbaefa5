//! Whether a run of a script has room for all that its processes ask for.

ghost use Rattle.std.specs.Prelude.{◌≡◌, ◌<◌, ◌⊎◌, ◌↔◌, IfOk, IfSome, Ok, Err, None};
ghost use Rattle.script_load.specs.declared.limits.TheConstants.{MAX_TURNS};
ghost use Rattle.script_load.specs.Line.{lines_of};
ghost use Rattle.run_model.specs.ScriptRun.{IsSpentFrom, script_kernel};
ghost use Rattle.kernel_runs.specs.Room.{HasRoom, IsFilled};

use crate::run::{RunOneFault, run_one};
use kernel_model::Full;
use mem_files::Files;
use script_load::Script;
use std::alloc::{Allocator, Global};

/// Runs the script on one hart, in the kernel's order and in at most `turns` turns, and returns what was full first in that run; `None`
/// where nothing was (own; the run is that of xv6's `scheduler` on one processor).
///
/// The faults are those of `run_one`. Memory that is refused to a process is `Full::Memory`, where nothing else was full before.
pub fn full_in_run<B: Allocator, C: Allocator>(
    alloc: Global,
    script: &Script<B>,
    stdin: &[u8],
    files: &Files<C>,
    turns: u64,
) -> Result<Option<Full>, RunOneFault>
    ensures room { result ≡ Ok None → HasRoom (script_kernel script.now.profile (lines_of script.now.lines) stdin.now files.now) }
    ensures full { IfOk result (λ found. IfSome found (IsFilled (script_kernel script.now.profile (lines_of script.now.lines) stdin.now files.now))) }
    ensures bad_turns { (result ≡ Err RunOneFault.BadTurns) ↔ ((turns ≡ 0) ⊎ (MAX_TURNS < turns)) }
    ensures spent { result ≡ Err RunOneFault.Spent → IsSpentFrom (script_kernel script.now.profile (lines_of script.now.lines) stdin.now files.now) turns }
{
    match run_one(alloc, script, stdin, files, turns) {
        Ok(report) => Ok(report.full),
        Err(fault) => Err(fault),
    }
}
