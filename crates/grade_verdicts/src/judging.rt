//! Verdicts of tests on scripts.

ghost use Rattle.std.specs.Prelude.{◌≡◌, ◌≢◌, ◌<◌, ◌≤◌, ◌↔◌, IsTrue, IfOk, IfErr, IfSome, Ok, Some, All, Any, Contains, map, true, false, None};
ghost use Rattle.script_load.specs.Line.{lines_of};
ghost use Rattle.script_load.specs.Script.{IsScript};
ghost use Rattle.script_load.specs.declared.limits.TheConstants.{MAX_TURNS};
ghost use Rattle.sh_machine.specs.Turn.{call_of, next_of};
ghost use Rattle.kernel_model.specs.Explored.{AreAllOutcomes, IsNeverStuck};
ghost use Rattle.order_search.specs.Told.{outcome_by, IsReplayed, LeadsToSleep};
ghost use Rattle.kernel_model.specs.declared.events.Full.TheVariants.{Memory};
ghost use Rattle.run_model.specs.ScriptRun.{IsSpentFrom};
ghost use Rattle.grade_verdicts.specs.Agrees.{AgreesWith};
ghost use Rattle.grade_verdicts.specs.Judged.{AreMost, EndsInTime, IsInTime, IsJudged, IsKnown, IsMeant, IsOfRace, IsPass, IsVerdict, IsWrong, IsWrongSoFar, start_of};

use crate::agreeing::{are_firm, first_filled, first_right, first_roomy, first_wrong};
use crate::differing::{difference_of, first_difference};
use crate::expected::Task;
use crate::searching::search;
use crate::verdict::{Difference, Race, Refusal, Verdict};
use every_order::{Exploration, ExploreFault, Outcome};
use kernel_model::Full;
use kernel_runs::{RunOneFault, full_in_run, run_one};
use mem_files::laws::are_files;
use plain_run::{Plain, PlainFault, plain};
use script_load::{Line, LoadFault, MAX_TURNS, Script, load_with};
use script_notes::NoteKind;
use sh_tree::ParseFault;
use std::alloc::{AllocError, Global};

// The sentence of a fault of this text.
fn kind_of(fault: ParseFault, text: &[u8]) -> NoteKind {
    match fault {
        ParseFault::MissingFile(_) => NoteKind::MissingName,
        ParseFault::MissingParen(_) => NoteKind::OpenParen,
        ParseFault::TooManyWords(_) => NoteKind::TenthWord,
        ParseFault::Unexpected(_) => NoteKind::LateParen,
        ParseFault::Leftover(at) if text.get(at) == Some(&b')') => NoteKind::StrayParen,
        ParseFault::Leftover(_) | ParseFault::Memory => NoteKind::LeftOver,
    }
}

// The first line that is no command, if there is one.
fn bad_line(script: &Script<Global>) -> Option<(usize, NoteKind)> {
    for (i, line) in script.lines.as_slice().iter().enumerate() {
        if let Line::Bad(fault, text) = line {
            let kind = kind_of(*fault, text.as_slice());
            return Some((i.saturating_add(1), kind));
        }
    }
    None
}

// The verdict on a script that leaves something else: in every order, or in each that was tried.
fn wrong(
    task: &Task<'_>,
    script: &Script<Global>,
    is_whole: bool,
    difference: Difference,
) -> Verdict
    requires whole { is_whole ≡ true → IsWrong task.now (lines_of script.now.lines) }
    requires part { is_whole ≡ false → IsWrongSoFar task.now (lines_of script.now.lines) }
    ensures due { IsVerdict task.now (lines_of script.now.lines) result }
    ensures no_race { IsOfRace result → ⊥ }
{
    match bad_line(script) {
        Some((line, kind)) => Verdict::Refused(Refusal::Line(line, kind)),
        None if is_whole => Verdict::Wrong(difference),
        None => Verdict::WrongSoFar(difference),
    }
}

// The most events of a run: as many as the test allows, or as many as any run may have.
pub fn turns_of(task: &Task<'_>) -> u64
    ensures are { AreMost task.now result }
    ensures some { 0 < result }
    ensures most { result ≤ MAX_TURNS }
{
    if task.turns == 0 || MAX_TURNS < task.turns {
        return MAX_TURNS;
    }
    task.turns
}

// The verdict on a settled script whose meaning is what is expected: a pass where a run of it on one hart, in the kernel's order, has
// room.
fn judge_room(
    alloc: Global,
    task: &Task<'_>,
    script: &Script<Global>,
) -> Result<Verdict, AllocError>
    requires profile { script.now.profile ≡ task.now.profile }
    requires meant { IsMeant task.now (lines_of script.now.lines) }
    ensures { IfOk result (IsVerdict task.now (lines_of script.now.lines)) }
{
    match full_in_run(alloc, script, task.stdin, task.files, turns_of(task)) {
        Ok(None) => Ok(Verdict::Pass),
        Ok(Some(Full::Memory)) => Err(AllocError),
        Ok(Some(full)) => Ok(Verdict::NoRoom(full)),
        Err(RunOneFault::Spent) => Ok(Verdict::Spent),
        Err(RunOneFault::BadTurns | RunOneFault::Memory) => Err(AllocError),
    }
}

// What the meaning says of the script, where it says what every run leaves: the script is settled, and no file that is
// expected is soft.
fn judge_by_meaning(
    alloc: Global,
    task: &Task<'_>,
    script: &Script<Global>,
) -> Result<Option<Verdict>, AllocError>
    requires { script.now.profile ≡ task.now.profile }
    ensures verdict { IfOk result (λ known. IfSome known (IsVerdict task.now (lines_of script.now.lines))) }
    ensures unknown { result ≡ Ok None → IsKnown task.now (lines_of script.now.lines) → ⊥ }
{
    are_files(task.files);
    let value = match plain(alloc, script, task.stdin, task.files) {
        Ok(value) => value,
        Err(PlainFault::TooLarge) => return Ok(Some(Verdict::TooLarge)),
        Err(PlainFault::Memory) => return Err(AllocError),
    };
    if !value.settled {
        return Ok(None);
    }
    if !are_firm(&value.soft, task.expected) {
        return Ok(None);
    }
    let difference = first_difference(alloc, task.expected, value.out.as_slice(), &value.files)?;
    match difference {
        Some(difference) => Ok(Some(wrong(task, script, true, difference))),
        None => {
            let verdict = judge_room(alloc, task, script)?;
            Ok(Some(verdict))
        }
    }
}

// The schedule of the outcome.
fn way_to(alloc: Global, outcome: &Outcome) -> Result<Vec<u8>, AllocError>
    ensures { IfOk result (λ way. way.items ≡ outcome.now.pids.items) }
{
    Vec::from_slice(alloc, outcome.pids.as_slice())
}

// The verdict on what was found, where this outcome isn't what is expected: a race exactly where another one is.
fn judge_wrong(
    alloc: Global,
    task: &Task<'_>,
    script: &Script<Global>,
    found: &Exploration,
    other: &Outcome,
) -> Result<Verdict, AllocError>
    requires sound { All (IsReplayed call_of next_of (start_of task.now (lines_of script.now.lines))) found.now.outcomes.items }
    requires complete { found.now.whole ≡ true → AreAllOutcomes call_of next_of (start_of task.now (lines_of script.now.lines)) (map outcome_by found.now.outcomes.items) }
    requires among { Contains found.now.outcomes.items other.now }
    requires differs { AgreesWith task.now.expected.now other.now → ⊥ }
    ensures due { IfOk result (IsVerdict task.now (lines_of script.now.lines)) }
    ensures race { IfOk result (λ verdict. IsOfRace verdict ↔ Any (AgreesWith task.now.expected.now) found.now.outcomes.items) }
{
    let difference = difference_of(alloc, task.expected, other.out.as_slice(), &other.files)?;
    match first_right(task.expected, found.outcomes.as_slice()) {
        None => Ok(wrong(task, script, found.whole, difference)),
        Some(outcome) => {
            let right = way_to(alloc, outcome)?;
            let wrong = way_to(alloc, other)?;
            Ok(Verdict::Race(Race {
                right,
                wrong,
                difference,
            }))
        }
    }
}

// What was full first in the run to the outcome, where that is anything but memory.
fn filling(outcome: &Outcome) -> Option<Full>
    ensures { IfSome result (λ full. (outcome.now.full ≡ Some full) × (full ≢ Memory)) }
{
    match outcome.full {
        None | Some(Full::Memory) => None,
        Some(full) => Some(full),
    }
}

// The verdict where these are all outcomes, each is what is expected, and something was full in each.
fn judge_filled(task: &Task<'_>, script: &Script<Global>, outcomes: &[Outcome]) -> Verdict
    requires sound { All (IsReplayed call_of next_of (start_of task.now (lines_of script.now.lines))) outcomes.now }
    requires right { All (AgreesWith task.now.expected.now) outcomes.now }
    requires unknown { IsKnown task.now (lines_of script.now.lines) → ⊥ }
    ensures { IsVerdict task.now (lines_of script.now.lines) result }
{
    if let Some(outcome) = first_filled(outcomes) {
        if let Some(full) = filling(outcome) {
            return Verdict::NoRoom(full);
        }
    }
    Verdict::Unsure(outcomes.len())
}

// The verdict where these are all outcomes, and each is what is expected.
fn judge_right(task: &Task<'_>, script: &Script<Global>, outcomes: &[Outcome]) -> Verdict
    requires sound { All (IsReplayed call_of next_of (start_of task.now (lines_of script.now.lines))) outcomes.now }
    requires complete { AreAllOutcomes call_of next_of (start_of task.now (lines_of script.now.lines)) (map outcome_by outcomes.now) }
    requires right { All (AgreesWith task.now.expected.now) outcomes.now }
    requires awake { IsNeverStuck call_of next_of (start_of task.now (lines_of script.now.lines)) }
    requires unknown { IsKnown task.now (lines_of script.now.lines) → ⊥ }
    ensures { IsVerdict task.now (lines_of script.now.lines) result }
{
    match first_roomy(outcomes) {
        Some(_roomy) => Verdict::PassEveryOrder,
        None => judge_filled(task, script, outcomes),
    }
}

// Whether nobody was found stuck.
fn is_awake(found: &Exploration) -> bool
    ensures { IsTrue result ↔ (found.now.stuck ≡ None) }
{
    found.stuck.is_none()
}

// The verdict on what an exploration found.
fn judge_found(
    alloc: Global,
    task: &Task<'_>,
    script: &Script<Global>,
    found: &Exploration,
) -> Result<Verdict, AllocError>
    requires sound { All (IsReplayed call_of next_of (start_of task.now (lines_of script.now.lines))) found.now.outcomes.items }
    requires complete { found.now.whole ≡ true → AreAllOutcomes call_of next_of (start_of task.now (lines_of script.now.lines)) (map outcome_by found.now.outcomes.items) }
    requires awake { found.now.whole ≡ true → found.now.stuck ≡ None → IsNeverStuck call_of next_of (start_of task.now (lines_of script.now.lines)) }
    requires asleep { IfSome found.now.stuck (λ pids. LeadsToSleep call_of next_of (start_of task.now (lines_of script.now.lines)) pids.items) }
    requires unknown { IsKnown task.now (lines_of script.now.lines) → ⊥ }
    ensures { IfOk result (IsVerdict task.now (lines_of script.now.lines)) }
{
    let outcomes = found.outcomes.as_slice();
    if let Some(other) = first_wrong(task.expected, outcomes) {
        return judge_wrong(alloc, task, script, found, other);
    }
    if !is_awake(found) {
        return Ok(Verdict::Spent);
    }
    if !found.whole {
        return Ok(Verdict::Unsure(outcomes.len()));
    }
    Ok(judge_right(task, script, outcomes))
}

// The verdict on a script whose meaning doesn't say what every run leaves, by a few orders of its processes where they show a race, and
// else by every order.
fn judge_by_orders(
    alloc: Global,
    task: &Task<'_>,
    script: &Script<Global>,
) -> Result<Verdict, AllocError>
    requires profile { script.now.profile ≡ task.now.profile }
    requires unknown { IsKnown task.now (lines_of script.now.lines) → ⊥ }
    ensures { IfOk result (IsVerdict task.now (lines_of script.now.lines)) }
{
    match search(alloc, task, script) {
        Ok(found) => judge_found(alloc, task, script, &found),
        Err(ExploreFault::Memory) => Err(AllocError),
        Err(ExploreFault::TooLong) => Ok(Verdict::Unsure(0)),
    }
}

// Whether a run of the script, on one hart and in the kernel's order, ends within the events that the test allows.
fn ends_in_time(alloc: Global, task: &Task<'_>, script: &Script<Global>) -> Result<bool, AllocError>
    requires { script.now.profile ≡ task.now.profile }
    ensures ends { result ≡ Ok true → EndsInTime task.now (lines_of script.now.lines) }
    ensures spent { result ≡ Ok false → IsSpentFrom (start_of task.now (lines_of script.now.lines)) task.now.turns }
{
    match run_one(alloc, script, task.stdin, task.files, task.turns) {
        Ok(_report) => Ok(true),
        Err(RunOneFault::BadTurns) => Ok(true),
        Err(RunOneFault::Spent) => Ok(false),
        Err(RunOneFault::Memory) => Err(AllocError),
    }
}

/// What the test says of a script (own): `judge` of the bytes that it was read from.
///
/// `AllocError` where memory is refused.
pub fn judge_script(
    alloc: Global,
    task: &Task<'_>,
    script: &Script<Global>,
) -> Result<Verdict, AllocError>
    requires { script.now.profile ≡ task.now.profile }
    ensures verdict { IfOk result (IsVerdict task.now (lines_of script.now.lines)) }
    ensures time { IfOk result (IsInTime task.now (lines_of script.now.lines)) }
{
    if !ends_in_time(alloc, task, script)? {
        return Ok(Verdict::Spent);
    }
    if let Some(verdict) = judge_by_meaning(alloc, task, script)? {
        return Ok(verdict);
    }
    judge_by_orders(alloc, task, script)
}

/// The script of these bytes under the test's meaning of `>>`; or the verdict on them, where they are too many or no script (own).
///
/// `AllocError` where memory is refused.
pub fn read_script(
    alloc: Global,
    task: &Task<'_>,
    bytes: &[u8],
) -> Result<Result<Script<Global>, Verdict>, AllocError>
    ensures script { IfOk result (λ read. IfOk read (λ script. IsScript bytes.now (lines_of script.lines))) }
    ensures profile { IfOk result (λ read. IfOk read (λ script. script.profile ≡ task.now.profile)) }
    ensures refused { IfOk result (λ read. IfErr read (IsJudged task.now bytes.now)) }
    ensures no_pass { IfOk result (λ read. IfErr read (λ verdict. IsPass verdict → ⊥)) }
{
    if task.bytes < bytes.len() {
        return Ok(Err(Verdict::TooLarge));
    }
    match load_with(alloc, bytes, task.profile) {
        Ok(script) => Ok(Ok(script)),
        Err(LoadFault::Memory) => Err(AllocError),
        Err(fault) => Ok(Err(Verdict::Refused(Refusal::Script(fault)))),
    }
}

/// What the test says of these bytes as a script (own): its verdict is due (`IsJudged`). `Pass` is returned only where the script
/// is settled on this input and these files, its meaning's output and files, and those of every finished run in which nothing
/// was full, are what is expected, and there is such a run; `PassEveryOrder` only where all outcomes are, and there is such a run;
/// `Wrong` only where no finished run in which nothing was full leaves what is expected, `WrongSoFar` only where those that were found
/// don't, and `Race` only where one does and one doesn't; `NoRoom` only where something other than memory was full in a finished run;
/// `Unsure` never of a settled script, unless a file that is expected is soft; `Spent` only where a run isn't finished after as many
/// events as the test allows, or comes to where all its processes sleep, and any other verdict on a script only where a run ends
/// within them. Files that aren't expected may be there too.
///
/// `AllocError` where memory is refused.
pub fn judge(alloc: Global, task: &Task<'_>, bytes: &[u8]) -> Result<Verdict, AllocError>
    ensures { IfOk result (IsJudged task.now bytes.now) }
{
    let read = read_script(alloc, task, bytes)?;
    match read {
        Ok(script) => judge_script(alloc, task, &script),
        Err(verdict) => Ok(verdict),
    }
}
