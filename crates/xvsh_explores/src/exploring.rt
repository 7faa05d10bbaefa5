//! What `explore` does: it reads a script, its files and its input, and finds what the script can leave.
ghost use Rattle.std.specs.Prelude.{◌≡◌, ◌⊎◌, IfOk, IfErr, IfSome, None, false, true};
ghost use Rattle.script_load.specs.Line.{lines_of};
ghost use Rattle.script_outcomes.specs.Found.{IsFound, is_stopped};
ghost use Rattle.script_outcomes.specs.Pairs.{IsClearest};
ghost use Rattle.script_outcomes.specs.declared.pair.Pair.{Pair};
ghost use Rattle.xvsh_plain.specs.Dead.{AreBadAt, AreDeadAt};
ghost use Rattle.xvsh_explores.specs.Explores.{IsBeforeSearch, IsExploringFault, IsMissing, IsMissingFrom, IsPairFault, IsPairOf, outcome_count, tried_outcomes};
ghost use Rattle.xvsh_read.specs.Starting.{Starts};
ghost use Rattle.xvsh_read.specs.declared.fault.Fault.TheVariants.{Memory, TooLarge};

use crate::fault::ExploringFault;
use crate::request::ExploreRequest;
use dead_lines::{bad_lines, dead_lines};
use script_outcomes::{
    ExploreFault, Found, Limits, Outcome, Pair, Setting, Watch, named_pair, outcomes_of, shown_pair,
};
use std::alloc::Global;
use xvsh_read::{Fault, Host, Start, prepare};

/// What was found of a script.
#[derive(Drop)]
pub struct Explored {
    /// What its runs begin with.
    pub start: Start,
    /// What was found.
    pub found: Found,
    /// The places of the two outcomes that are compared and drawn, if any are: those that are asked for, or else those whose difference is
    /// easiest to see.
    pub pair: Option<Pair>,
    /// The numbers, from 1, of the script's lines that are no command.
    pub bad: Vec<usize>,
    /// Those of the lines that are no command or name no program.
    pub dead: Vec<usize>,
}

// Whether something is asked for that only trying orders shows: every turn, a schedule of each outcome, a page, or a pair.
fn needs_orders(request: &ExploreRequest<'_>) -> bool {
    request.is_full
        || request.witness.is_some()
        || request.draw.is_some()
        || request.play.is_some()
        || request.pair.is_some()
}

// How far to search: a settled script too where a schedule of its outcome is to be shown.
fn limits_of(request: &ExploreRequest<'_>) -> Limits
    ensures states { result.states ≡ request.now.states }
    ensures settled { result.is_thorough ≡ false → request.now.is_thorough ≡ false }
{
    Limits {
        states: request.states as usize,
        is_full: request.is_full,
        is_thorough: request.is_thorough || needs_orders(request),
    }
}

/// What is found of a script from what its runs begin with: as `run_explore`, of a request whose source was read. `watch` is shown how many
/// states were found, and may stop the search (`stopped`).
pub fn explore_start<'a, W: Watch>(
    alloc: Global,
    start: &Start,
    request: &ExploreRequest<'_>,
    watch: &mut W,
) -> Result<Found, Fault<'a>>
    ensures found { IfOk result (IsFound start.now.script.profile (lines_of start.now.script.lines) start.now.stdin.items start.now.files request.now.states request.now.is_thorough) }
    ensures stopped { IfOk result (λ found. is_stopped found ≡ true → W.stopped watch.new) }
    ensures fault { IfErr result (λ fault. (fault ≡ Memory) ⊎ (fault ≡ TooLarge)) }
{
    let setting = Setting {
        script: &start.script,
        stdin: start.stdin.as_slice(),
        files: &start.files,
    };
    match outcomes_of(alloc, &setting, limits_of(request), watch) {
        Ok(found) => Ok(found),
        Err(ExploreFault::Memory) => Err(Fault::Memory),
        Err(ExploreFault::TooLong) => Err(Fault::TooLarge),
    }
}

// The pair that the request asks for, if it asks for one.
fn asked_pair<'a>(request: &ExploreRequest<'a>) -> Result<Option<Pair>, ExploringFault<'a>>
    ensures pair { IfOk result (IsPairOf request.now.pair) }
    ensures none { IfOk result (λ pair. request.now.pair ≡ None → pair ≡ None) }
    ensures fault { IfErr result (IsPairFault request.now.pair) }
    ensures early { IfErr result IsBeforeSearch }
{
    let Some(word) = request.pair else {
        return Ok(None);
    };
    match named_pair(word) {
        Some(pair) => Ok(Some(pair)),
        None => Err(ExploringFault::NoPair(word)),
    }
}

// The outcomes that were found by trying orders.
fn tried(found: &Found) -> &[Outcome]
    ensures { result.now ≡ tried_outcomes found.now }
{
    match found {
        Found::Settled(_) => &[],
        Found::Tried(tried) => tried.found.outcomes.as_slice(),
    }
}

// How many outcomes were found.
fn count_of(found: &Found) -> usize
    ensures { result ≡ outcome_count found.now }
{
    match found {
        Found::Settled(_) => 1,
        Found::Tried(tried) => tried.found.outcomes.len(),
    }
}

// The two outcomes that are compared, or that those which the request asks for aren't there.
fn pair_of<'a>(
    request: &ExploreRequest<'a>,
    asked: Option<Pair>,
    found: &Found,
) -> Result<Option<Pair>, ExploringFault<'a>>
    ensures pair { IfOk result (λ pair. IsPairOf request.now.pair asked → IsPairOf request.now.pair pair) }
    ensures clearest { IfOk result (λ pair. asked ≡ None → IfSome pair (IsClearest (tried_outcomes found.now))) }
    ensures fault { IfErr result (IsPairFault request.now.pair) }
    ensures missing { IfErr result (λ fault. IsPairOf request.now.pair asked → IsMissingFrom found.now fault) }
{
    let shown = shown_pair(tried(found), asked);
    match request.pair {
        Some(word) => {
            if shown == asked {
                Ok(shown)
            } else {
                Err(ExploringFault::NoOutcome(word, count_of(found)))
            }
        }
        None => Ok(shown),
    }
}

/// `explore`: reads the script, the files in order, and standard input unless that is the script, and finds what the script can leave
/// (own). A settled script that has room leaves what it means, and no order of it is tried,
/// unless the request is thorough or asks for schedules, a page or a pair, or some file is soft. The host is shown how many states were found, and may
/// stop the search (`stopped`). Nothing is written.
///
/// A run with more turns than can be counted is the fault `TooLarge`. `NoPair` of a word that names no two outcomes, and `NoOutcome` of
/// one that names an outcome which wasn't found.
pub fn run_explore<'a, H: Host + Watch>(
    alloc: Global,
    request: &ExploreRequest<'a>,
    host: &mut H,
) -> Result<Explored, ExploringFault<'a>>
    ensures starts { IfOk result (λ explored. Starts (H.input host.old) (H.file host.old) false request.now.source.script.now request.now.source.files.now
        (lines_of explored.start.script.lines) explored.start.files explored.start.stdin.items) }
    ensures profile { IfOk result (λ explored. explored.start.script.profile ≡ request.now.source.profile) }
    ensures found { IfOk result (λ explored. IsFound request.now.source.profile (lines_of explored.start.script.lines) explored.start.stdin.items explored.start.files request.now.states request.now.is_thorough explored.found) }
    ensures stopped { IfOk result (λ explored. is_stopped explored.found ≡ true → H.stopped host.new) }
    ensures bad { IfOk result (λ explored. AreBadAt (H.input host.old) (H.file host.old) request.now.source.script.now explored.bad.items) }
    ensures dead { IfOk result (λ explored. AreDeadAt (H.input host.old) (H.file host.old) request.now.source.script.now explored.dead.items) }
    ensures pair { IfOk result (λ explored. IsPairOf request.now.pair explored.pair) }
    ensures clearest { IfOk result (λ explored. request.now.pair ≡ None → IfSome explored.pair (IsClearest (tried_outcomes explored.found))) }
    ensures fault { IfErr result (IsExploringFault (H.input host.old) (H.file host.old) request.now.source.script.now request.now.source.files.now request.now.pair) }
    ensures missing { IfErr result (IsMissing (H.input host.old) (H.file host.old) request.now.source.profile request.now.source.script.now request.now.source.files.now request.now.states request.now.is_thorough) }
{
    let asked = asked_pair(request)?;
    let start = prepare(alloc, host, &request.source, false)?;
    let found = explore_start(alloc, &start, request, host)?;
    let pair = pair_of(request, asked, &found)?;
    let bad = bad_lines(alloc, start.script.lines.as_slice())?;
    let dead = dead_lines(alloc, start.script.lines.as_slice())?;
    Ok(Explored {
        start,
        found,
        pair,
        bad,
        dead,
    })
}
