//! Runs of a script to its end.
ghost use Rattle.std.specs.Prelude.{◌≡◌, ◌≢◌, ◌+◌, ◌≤◌, false, Err, IfOk};
ghost use Rattle.mem_files.specs.Files.{files};
ghost use Rattle.conflict_check.specs.Clear.{IsClear, has_back};
ghost use Rattle.script_load.specs.Line.{lines_of};
ghost use Rattle.meaning_model.specs.Meaning.{script_tree};
ghost use Rattle.hart_run.specs.Answer.{IsAnswerIfRoomy, IsAnswerIfSettled};
ghost use Rattle.kernel_events.specs.Reports.{IsRunFrom};
ghost use Rattle.run_model.specs.ScriptRun.{script_kernel};
ghost use Rattle.script_load.specs.declared.limits.TheConstants.{MAX_TURNS};
ghost use Rattle.room_model.specs.Roomy.{IsRoomyScript};
ghost use Rattle.step_bounds.specs.Most.{most_events};
ghost use Rattle.hart_run.specs.Filled.{IsFilledFrom, IsRefusedFrom};

use crate::run::run_one;
use kernel_events::Report;
use kernel_runs::RunOneFault;
use mem_files::Files;
use mem_files::laws::are_files;
use script_load::{MAX_TURNS, Script};
use std::alloc::Allocator;
use step_bounds::turns_enough;

// As many turns as are enough, or where these are more than a run may have, as many as that.
fn turns_for<A: Allocator, B: Allocator>(script: &Script<A>, stdin: &[u8], store: &Files<B>) -> u64
    ensures enough { most_events (lines_of script.now.lines) stdin.now (files store.now) + 2 ≤ MAX_TURNS → result ≡ most_events (lines_of script.now.lines) stdin.now (files store.now) + 2 }
    ensures some { 1 ≤ result }
    ensures within { result ≤ MAX_TURNS }
{
    match turns_enough(script, stdin, store) {
        Some(turns) => turns,
        None => MAX_TURNS,
    }
}

/// Runs a script by its processes on hart 0, as `run_one`, in as many turns as are enough for it, or where these are more than a
/// run may have, in as many as that.
///
/// `Spent` of a clear script without `&` for which so many are enough only where something was full; never `BadTurns`; `Memory`
/// as `run_one`.
pub fn run_whole<A: Allocator + Copy, B: Allocator, C: Allocator>(
    alloc: A,
    script: &Script<B>,
    stdin: &[u8],
    store: &Files<C>,
) -> Result<Report<A>, RunOneFault>
    ensures run { IfOk result (IsRunFrom (script_kernel script.now.profile (lines_of script.now.lines) stdin.now store.now)) }
    ensures answer { IfOk result (IsAnswerIfSettled script.now.profile (lines_of script.now.lines) stdin.now store.now) }
    ensures roomy { IfOk result (IsAnswerIfRoomy script.now.profile (lines_of script.now.lines) stdin.now store.now) }
    ensures bad_turns { result ≢ Err RunOneFault.BadTurns }
    ensures spent { result ≡ Err RunOneFault.Spent → has_back (script_tree (lines_of script.now.lines)) ≡ false → IsClear (script_tree (lines_of script.now.lines))
        → most_events (lines_of script.now.lines) stdin.now (files store.now) + 2 ≤ MAX_TURNS → IsFilledFrom (script_kernel script.now.profile (lines_of script.now.lines) stdin.now store.now) }
    ensures ends { result ≡ Err RunOneFault.Spent → has_back (script_tree (lines_of script.now.lines)) ≡ false → IsClear (script_tree (lines_of script.now.lines))
        → IsRoomyScript (lines_of script.now.lines) stdin.now store.now → most_events (lines_of script.now.lines) stdin.now (files store.now) + 2 ≤ MAX_TURNS
        → IsRefusedFrom (script_kernel script.now.profile (lines_of script.now.lines) stdin.now store.now) }
{
    are_files(store);
    let turns = turns_for(script, stdin, store);
    run_one(alloc, script, stdin, store, turns)
}
