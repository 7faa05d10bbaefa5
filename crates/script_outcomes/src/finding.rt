//! What a script can leave.
ghost use Rattle.std.specs.Prelude.{◌≡◌, ◌⊎◌, ◌≤◌, true, All, IfOk, IfSome, None, Ok, OnOk, map};
ghost use Rattle.script_load.specs.Line.{lines_of};
ghost use Rattle.sh_machine.specs.Turn.{call_of, next_of};
ghost use Rattle.run_model.specs.ScriptRun.{script_kernel};
ghost use Rattle.kernel_runs.specs.Room.{HasRoom};
ghost use Rattle.script_outcomes.specs.Found.{AreTried, IsFound, IsKnown, IsReordered, is_stopped};

use crate::sorting::sorted;
use every_order::{
    Exploration, ExploreFault, Extent, Setting, Watch, add_samples, explore_watched,
};
use kernel_model::Full;
use kernel_runs::{RunOneFault, full_in_run};
use plain_run::{Plain, PlainFault, plain};
use script_load::MAX_TURNS;
use std::alloc::{AllocError, Allocator, Global};

/// What trying orders found.
#[derive(Drop)]
pub struct Tried {
    /// The outcomes, by output, then files, then diagnostics, and whether every order was tried.
    pub found: Exploration,
    /// Where not every order was tried, how many runs in a few orders ended.
    pub runs: usize,
}

/// What was found of a script.
#[derive(Drop)]
pub enum Found {
    /// The script is settled, no file of it is soft, and it has room: every order leaves what it means.
    Settled(Plain<Global>),
    Tried(Tried),
}

/// How far to search.
#[derive(Clone, Copy, Debug)]
pub struct Limits {
    /// The most states to keep.
    pub states: usize,
    /// Whether every turn is tried in every state (`Extent`).
    pub is_full: bool,
    /// Whether to try the orders of a settled script too, whose one answer is known without.
    pub is_thorough: bool,
}

// Adds what runs in a few orders leave, where not every order was tried, and returns how many of these runs ended.
fn add_sampled<B: Allocator, C: Allocator>(
    alloc: Global,
    setting: &Setting<'_, B, C>,
    states: usize,
    found: &mut Exploration,
) -> Result<usize, ExploreFault>
    requires { AreTried (script_kernel setting.now.script.now.profile (lines_of setting.now.script.now.lines) setting.now.stdin.now setting.now.files.now) states found.old }
    ensures tried { OnOk result (AreTried (script_kernel setting.now.script.now.profile (lines_of setting.now.script.now.lines) setting.now.stdin.now setting.now.files.now) states found.new) }
    ensures stopped { found.new.stopped ≡ found.old.stopped }
{
    if found.whole {
        return Ok(0);
    }
    add_samples(alloc, setting, &mut found.outcomes)
}

// The same, with the outcomes in order.
fn in_order(alloc: Global, found: Exploration) -> Result<Exploration, AllocError>
    ensures { IfOk result (IsReordered found) }
{
    let Exploration {
        whole,
        stopped,
        states,
        outcomes,
        stuck,
    } = found;
    let outcomes = sorted(alloc, outcomes)?;
    Ok(Exploration {
        whole,
        stopped,
        states,
        outcomes,
        stuck,
    })
}

// What is found by trying orders, where at most so many states are kept.
fn search<B: Allocator, C: Allocator, W: Watch>(
    alloc: Global,
    setting: &Setting<'_, B, C>,
    extent: Extent,
    watch: &mut W,
) -> Result<Tried, ExploreFault>
    ensures tried { IfOk result (λ t. AreTried (script_kernel setting.now.script.now.profile (lines_of setting.now.script.now.lines) setting.now.stdin.now setting.now.files.now) extent.states t.found) }
    ensures stopped { IfOk result (λ t. t.found.stopped ≡ true → W.stopped watch.new) }
{
    let mut found = explore_watched(alloc, setting, extent, watch)?;
    let runs = add_sampled(alloc, setting, extent.states, &mut found)?;
    let sorted = in_order(alloc, found)?;
    Ok(Tried {
        found: sorted,
        runs,
    })
}

// Whether a run of the script ends in which nothing is full.
fn has_room<B: Allocator, C: Allocator>(
    alloc: Global,
    setting: &Setting<'_, B, C>,
) -> Result<bool, ExploreFault>
    ensures { result ≡ Ok true → HasRoom (script_kernel setting.now.script.now.profile (lines_of setting.now.script.now.lines) setting.now.stdin.now setting.now.files.now) }
{
    let (script, stdin, files) = (setting.script, setting.stdin, setting.files);
    match full_in_run(alloc, script, stdin, files, MAX_TURNS) {
        Ok(None) => Ok(true),
        Ok(Some(Full::Memory)) | Err(RunOneFault::Memory) => Err(ExploreFault::Memory),
        Ok(Some(_)) | Err(RunOneFault::BadTurns | RunOneFault::Spent) => Ok(false),
    }
}

// The script's meaning, where it is what every order leaves: where the script is settled, no file is soft, and there is room.
fn known<B: Allocator, C: Allocator>(
    alloc: Global,
    setting: &Setting<'_, B, C>,
) -> Result<Option<Plain<Global>>, ExploreFault>
    ensures { IfOk result (λ known. IfSome known (IsKnown setting.now.script.now.profile (lines_of setting.now.script.now.lines) setting.now.stdin.now setting.now.files.now)) }
{
    let value = match plain(alloc, setting.script, setting.stdin, setting.files) {
        Ok(value) => value,
        Err(PlainFault::TooLarge) => return Ok(None),
        Err(PlainFault::Memory) => return Err(ExploreFault::Memory),
    };
    if !value.settled || !value.soft.as_slice().is_empty() {
        return Ok(None);
    }
    if !has_room(alloc, setting)? {
        return Ok(None);
    }
    Ok(Some(value))
}

/// What a script can leave with this standard input and these files, whatever the order of its processes (own).
///
/// Of a settled script no file of which is soft, and of which a run ends in which nothing is full, that is its meaning, unless the
/// search is to be thorough. Of any other all orders are tried, unless they lead to more states than are to be kept, or `watch`, which is
/// shown how many states were found, stops the search (`stopped`); then the script is also run in a few orders, and what these leave is
/// added.
///
/// `Memory` where memory is refused, to a call of a process too; `TooLong` where a run has more turns than can be counted.
pub fn outcomes_of<B: Allocator, C: Allocator, W: Watch>(
    alloc: Global,
    setting: &Setting<'_, B, C>,
    limits: Limits,
    watch: &mut W,
) -> Result<Found, ExploreFault>
    ensures found { IfOk result (IsFound setting.now.script.now.profile (lines_of setting.now.script.now.lines) setting.now.stdin.now setting.now.files.now limits.states limits.is_thorough) }
    ensures stopped { IfOk result (λ found. is_stopped found ≡ true → W.stopped watch.new) }
{
    if !limits.is_thorough {
        if let Some(value) = known(alloc, setting)? {
            return Ok(Found::Settled(value));
        }
    }
    let extent = Extent {
        states: limits.states,
        is_full: limits.is_full,
    };
    let tried = search(alloc, setting, extent, watch)?;
    Ok(Found::Tried(tried))
}
