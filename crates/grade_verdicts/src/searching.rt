//! What is found of the ends of a script's runs: a few runs come first, since they often show a race, and a search of every order takes
//! long.

ghost use Rattle.std.specs.Prelude.{◌≡◌, IfOk, OnOk, IfSome, All, map, true, false, None, []};
ghost use Rattle.script_load.specs.Line.{lines_of};
ghost use Rattle.sh_machine.specs.Turn.{call_of, next_of};
ghost use Rattle.kernel_model.specs.Explored.{AreAllOutcomes, IsNeverStuck};
ghost use Rattle.order_search.specs.Told.{outcome_by, IsReplayed, LeadsToSleep};
ghost use Rattle.grade_verdicts.specs.Judged.{start_of};

use crate::agreeing::{first_right, first_wrong};
use crate::expected::{Expected, Task};
use every_order::{Exploration, ExploreFault, Outcome, Setting, add_samples, explore};
use script_load::Script;
use std::alloc::{AllocError, Global};

// What an exploration finds that has tried nothing yet.
fn nothing_found(alloc: Global) -> Exploration
    ensures part { result.whole ≡ false }
    ensures none { result.outcomes.items ≡ [] }
    ensures awake { result.stuck ≡ None }
{
    Exploration {
        whole: false,
        stopped: false,
        states: 0,
        outcomes: Vec::new(alloc),
        stuck: None,
    }
}

// Adds what a few runs of the script leave, where not every order was tried.
fn add_ends(
    alloc: Global,
    task: &Task<'_>,
    script: &Script<Global>,
    found: &mut Exploration,
) -> Result<(), ExploreFault>
    requires { script.now.profile ≡ task.now.profile }
    ensures whole { OnOk result (found.new.whole ≡ found.old.whole) }
    ensures stuck { OnOk result (found.new.stuck ≡ found.old.stuck) }
    ensures same { OnOk result (found.old.whole ≡ true → found.new.outcomes ≡ found.old.outcomes) }
    ensures sound { OnOk result (All (IsReplayed call_of next_of (start_of task.now (lines_of script.now.lines))) found.old.outcomes.items → All (IsReplayed call_of next_of (start_of task.now (lines_of script.now.lines))) found.new.outcomes.items) }
{
    if found.whole {
        return Ok(());
    }
    let setting = Setting {
        script,
        stdin: task.stdin,
        files: task.files,
    };
    let _ended = add_samples(alloc, &setting, &mut found.outcomes)?;
    Ok(())
}

// What a few runs of the script leave.
fn ends_of(
    alloc: Global,
    task: &Task<'_>,
    script: &Script<Global>,
) -> Result<Exploration, ExploreFault>
    requires { script.now.profile ≡ task.now.profile }
    ensures part { IfOk result (λ found. found.whole ≡ false) }
    ensures awake { IfOk result (λ found. found.stuck ≡ None) }
    ensures sound { IfOk result (λ found. All (IsReplayed call_of next_of (start_of task.now (lines_of script.now.lines))) found.outcomes.items) }
{
    let mut found = nothing_found(alloc);
    add_ends(alloc, task, script, &mut found)?;
    Ok(found)
}

// What every order leaves; or, where there are too many to try, each that was tried and a few more.
fn every_end(
    alloc: Global,
    task: &Task<'_>,
    script: &Script<Global>,
) -> Result<Exploration, ExploreFault>
    requires profile { script.now.profile ≡ task.now.profile }
    ensures sound { IfOk result (λ found. All (IsReplayed call_of next_of (start_of task.now (lines_of script.now.lines))) found.outcomes.items) }
    ensures complete { IfOk result (λ found. found.whole ≡ true → AreAllOutcomes call_of next_of (start_of task.now (lines_of script.now.lines)) (map outcome_by found.outcomes.items)) }
    ensures awake { IfOk result (λ found. found.whole ≡ true → found.stuck ≡ None → IsNeverStuck call_of next_of (start_of task.now (lines_of script.now.lines))) }
    ensures asleep { IfOk result (λ found. IfSome found.stuck (λ pids. LeadsToSleep call_of next_of (start_of task.now (lines_of script.now.lines)) pids.items)) }
{
    let mut found = explore(alloc, script, task.stdin, task.files, task.states)?;
    add_ends(alloc, task, script, &mut found)?;
    Ok(found)
}

// Whether one of the outcomes is what is expected, and one isn't.
fn is_race(expected: &Expected, outcomes: &[Outcome]) -> bool {
    first_right(expected, outcomes).is_some() && first_wrong(expected, outcomes).is_some()
}

/// What is found of the ends of a script's runs: those of a few, where one of these leaves what is expected and another doesn't; else
/// those of every order, or where there are too many to try of each that was tried and a few more.
pub(crate) fn search(
    alloc: Global,
    task: &Task<'_>,
    script: &Script<Global>,
) -> Result<Exploration, ExploreFault>
    requires profile { script.now.profile ≡ task.now.profile }
    ensures sound { IfOk result (λ found. All (IsReplayed call_of next_of (start_of task.now (lines_of script.now.lines))) found.outcomes.items) }
    ensures complete { IfOk result (λ found. found.whole ≡ true → AreAllOutcomes call_of next_of (start_of task.now (lines_of script.now.lines)) (map outcome_by found.outcomes.items)) }
    ensures awake { IfOk result (λ found. found.whole ≡ true → found.stuck ≡ None → IsNeverStuck call_of next_of (start_of task.now (lines_of script.now.lines))) }
    ensures asleep { IfOk result (λ found. IfSome found.stuck (λ pids. LeadsToSleep call_of next_of (start_of task.now (lines_of script.now.lines)) pids.items)) }
{
    let ends = ends_of(alloc, task, script)?;
    if is_race(task.expected, ends.outcomes.as_slice()) {
        return Ok(ends);
    }
    every_end(alloc, task, script)
}
