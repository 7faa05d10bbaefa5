//! Outcomes of finished kernels.

ghost use Rattle.std.specs.Prelude.{◌≡◌, ◌↔◌, ◌++◌, ◌∷◌, [], IsTrue, IfOk, IfSome, OnOk, Ok, None, All, Contains, map};
ghost use Rattle.order_search.specs.Led.{start_kernel};
ghost use Rattle.kernel_model.specs.Events.{IsFinished};
ghost use Rattle.kernel_model.specs.Outcome.{outcome_of};
ghost use Rattle.kernel_model.specs.Explored.{IsFinishedOrBusy};
ghost use Rattle.order_search.specs.Told.{outcome_by, IsReplayed, IsAddedTo, LeadsToSleep, Tells};
ghost use Rattle.order_search.specs.Led.{kernel_of};

use crate::fault::ExploreFault;
use crate::looks::Look;
use crate::origin::{Origin, remake};
use crate::standing::{Standing, Tools};
use kernel_model::Full;
use mem_files::Files;
use std::alloc::{AllocError, Allocator, Global};
use user_calls::Machine;

/// What a finished run left, and a schedule that leads there.
#[derive(Drop)]
pub struct Outcome {
    /// What was written to the standard output.
    pub out: Vec<u8>,
    /// What was written as diagnostics.
    pub diag: Vec<u8>,
    /// The files.
    pub files: Files<Global>,
    /// What the first refusal for want of room was for, if there was one.
    pub full: Option<Full>,
    /// The processes, by their slots, in the order of their turns: each is given to hart 0, and at once makes its call.
    pub pids: Vec<u8>,
}

// Whether it is that of the kernel.
fn is_of<M: Machine>(outcome: &Outcome, look: &Look<M>) -> bool
    ensures { IsTrue result ↔ (outcome_by outcome.now ≡ outcome_of look.now) }
{
    outcome.full == look.full
        && outcome.out.as_slice() == look.out.bytes.as_slice()
        && outcome.diag.as_slice() == look.diag.bytes.as_slice()
        && outcome.files.same(&look.files.files)
}

// The outcome of the kernel that turns of these processes lead to, which is finished.
fn replayed<M: Machine, C: Allocator>(
    alloc: Global,
    origin: &Origin<'_, M, C>,
    pids: &[u8],
) -> Result<Outcome, ExploreFault>
    ensures { IfOk result (IsReplayed M.call_of M.next_of (start_kernel (M.view origin.now.init) (M.view origin.now.shell) origin.now.stdin.now origin.now.files.now)) }
{
    let state = remake(alloc, origin, pids)?;
    if !state.is_finished() {
        return Err(ExploreFault::TooLong);
    }
    let full = state.full();
    let pids = Vec::from_slice(alloc, pids)?;
    let (out, diag, files) = state.into_parts();
    Ok(Outcome {
        out,
        diag,
        files,
        full,
        pids,
    })
}

// Whether one of the outcomes is that of the kernel.
fn is_told<M: Machine>(outcomes: &[Outcome], look: &Look<M>) -> bool
    ensures { IsTrue result ↔ Contains (map outcome_by outcomes.now) (outcome_of look.now) }
{
    for outcome in outcomes {
        if is_of(outcome, look) {
            return true;
        }
    }
    false
}

// Reports the outcome of the kernel, unless that is reported already or the kernel isn't finished.
fn tell_of<M: Machine, C: Allocator>(
    alloc: Global,
    origin: &Origin<'_, M, C>,
    outcomes: &mut Vec<Outcome>,
    node: &Standing<'_, M, C>,
) -> Result<(), ExploreFault>
    ensures told { OnOk result (IsFinished node.now.now → Contains (map outcome_by outcomes.new.items) (outcome_of node.now.now)) }
    ensures added { OnOk result (IsAddedTo M.call_of M.next_of (start_kernel (M.view origin.now.init) (M.view origin.now.shell) origin.now.stdin.now origin.now.files.now) node.now.now outcomes.old.items outcomes.new.items) }
{
    if !node.look.is_finished() {
        return Ok(());
    }
    if is_told(outcomes, &node.look) {
        return Ok(());
    }
    let outcome = replayed(alloc, origin, &node.pids)?;
    if !is_of(&outcome, &node.look) {
        return Err(ExploreFault::TooLong);
    }
    push_outcome(outcomes, outcome)?;
    Ok(())
}

fn push_outcome(outcomes: &mut Vec<Outcome>, outcome: Outcome) -> Result<(), AllocError>
    ensures { OnOk result (outcomes.new.items ≡ outcomes.old.items ++ outcome ∷ []) }
{
    outcomes.push(outcome)?;
    Ok(())
}

// The outcomes of the finished kernels among these, each once, with the first schedule that leads there.
pub fn outcomes_of<M: Machine, C: Allocator>(
    alloc: Global,
    origin: &Origin<'_, M, C>,
    nodes: &[Standing<'_, M, C>],
) -> Result<Vec<Outcome>, ExploreFault>
    ensures { IfOk result (λ outcomes. Tells M.call_of M.next_of (start_kernel (M.view origin.now.init) (M.view origin.now.shell) origin.now.stdin.now origin.now.files.now) (map kernel_of nodes.now) outcomes.items) }
{
    let mut outcomes = Vec::new(alloc);
    for node in nodes {
        tell_of(alloc, origin, &mut outcomes, node)?;
    }
    Ok(outcomes)
}

// The schedule, which leads to a kernel that isn't finished and where nobody is Runnable.
fn asleep_by<M: Machine, C: Allocator>(
    alloc: Global,
    origin: &Origin<'_, M, C>,
    pids: &[u8],
) -> Result<Vec<u8>, ExploreFault>
    ensures { IfOk result (λ way. LeadsToSleep M.call_of M.next_of (start_kernel (M.view origin.now.init) (M.view origin.now.shell) origin.now.stdin.now origin.now.files.now) way.items) }
{
    let state = remake(alloc, origin, pids)?;
    if state.is_finished() {
        return Err(ExploreFault::TooLong);
    }
    if state.runnable() > 0 {
        return Err(ExploreFault::TooLong);
    }
    let way = Vec::from_slice(alloc, pids)?;
    Ok(way)
}

// A schedule that leads to a kernel that isn't finished and where nobody is Runnable, if one of these is where nobody can do
// anything but fall asleep.
pub fn stuck_of<'t, M: Machine, C: Allocator>(
    alloc: Global,
    origin: &Origin<'_, M, C>,
    tools: &mut Tools<'t, M, C>,
    nodes: &[Standing<'t, M, C>],
) -> Result<Option<Vec<u8>>, ExploreFault>
    ensures busy { result ≡ Ok None → All (IsFinishedOrBusy M.call_of M.next_of) (map kernel_of nodes.now) }
    ensures asleep { IfOk result (λ stuck. IfSome stuck (λ pids. LeadsToSleep M.call_of M.next_of (start_kernel (M.view origin.now.init) (M.view origin.now.shell) origin.now.stdin.now origin.now.files.now) pids.items)) }
{
    for node in nodes {
        if node.is_stuck(tools)? {
            let pids = node.with_ready(alloc)?;
            let way = asleep_by(alloc, origin, &pids)?;
            return Ok(Some(way));
        }
    }
    Ok(None)
}
