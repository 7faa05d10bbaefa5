//! Explorations of kernels.

ghost use Rattle.std.specs.Prelude.{◌≡◌, ◌<◌, IfOk, IfSome, None, All, length, map, true, false};
ghost use Rattle.order_search.specs.Led.{start_kernel};
ghost use Rattle.kernel_model.specs.Explored.{IsFinishedOrBusy};
ghost use Rattle.order_search.specs.Led.{kernel_of};
ghost use Rattle.order_search.specs.Room.{HasAhead};
ghost use Rattle.order_search.specs.Told.{LeadsToSleep, Tells};
ghost use Rattle.order_search.specs.Exploring.{Explores, ExploresAfter};

use crate::fault::ExploreFault;
use crate::origin::Origin;
use crate::outcomes::{Outcome, outcomes_of, stuck_of};
use crate::standing::{Standing, Tools};
use closed_search::{Bounds, Found, Watch, search};
use proc_table::PROCS;
use std::alloc::{Allocator, Global};
use user_calls::Machine;

// How many turns that give way to nobody's are taken in a row at most, before a state is kept.
const MAX_CHAIN: usize = 64;

/// What an exploration found.
#[derive(Drop)]
pub struct Exploration {
    /// Whether every order was tried.
    pub whole: bool,
    /// Whether the watch stopped the search.
    pub stopped: bool,
    /// How many states were kept: kernels that differ in more than who runs, who sleeps, the numbers of open-file entries, how many
    /// events there were, and what pipes are called. Where a turn gives way to nobody's the state after it stands for the one before it, which is not kept.
    pub states: usize,
    /// Each outcome that was found, once, with a schedule that leads to it.
    pub outcomes: Vec<Outcome>,
    /// The processes of turns that lead to where all processes sleep, if there are such turns.
    pub stuck: Option<Vec<u8>>,
}

/// Tries the orders in which the processes of a kernel can take their turns: all orders, unless they lead to more than
/// `states` states, or `watch`, which sees how many were found, stops the search. Where not every order was tried and the search isn't
/// said to be stopped, more states were found (`part`); it is said to be stopped only where the watch stopped it (`stopped`).
pub fn explore_from<M: Machine, C: Allocator, W: Watch>(
    alloc: Global,
    origin: &Origin<'_, M, C>,
    states: usize,
    watch: &mut W,
) -> Result<Exploration, ExploreFault>
    requires { HasAhead M.call_of M.next_of origin.now.ahead (start_kernel (M.view origin.now.init) (M.view origin.now.shell) origin.now.stdin.now origin.now.files.now) }
    ensures explores { IfOk result (Explores M.call_of M.next_of (start_kernel (M.view origin.now.init) (M.view origin.now.shell) origin.now.stdin.now origin.now.files.now) (start_kernel (M.view origin.now.init) (M.view origin.now.shell) origin.now.stdin.now origin.now.files.now)) }
    ensures part { IfOk result (λ e. e.whole ≡ false → e.stopped ≡ false → states < e.states) }
    ensures stopped { IfOk result (λ e. e.stopped ≡ true → W.stopped watch.new) }
{
    explore_after(alloc, origin, &[], states, watch)
}

/// Tries the orders in which the processes of a kernel can go on after turns of these processes, whose numbers are those of their
/// slots: `explore_from` there. What is reported of an outcome begins with these turns.
///
/// The fault is `TooLong` where one of the turns can't be taken.
pub fn explore_after<M: Machine, C: Allocator, W: Watch>(
    alloc: Global,
    origin: &Origin<'_, M, C>,
    pids: &[u8],
    states: usize,
    watch: &mut W,
) -> Result<Exploration, ExploreFault>
    requires { HasAhead M.call_of M.next_of origin.now.ahead (start_kernel (M.view origin.now.init) (M.view origin.now.shell) origin.now.stdin.now origin.now.files.now) }
    ensures explores { IfOk result (ExploresAfter M.call_of M.next_of (start_kernel (M.view origin.now.init) (M.view origin.now.shell) origin.now.stdin.now origin.now.files.now) pids.now) }
    ensures part { IfOk result (λ e. e.whole ≡ false → e.stopped ≡ false → states < e.states) }
    ensures stopped { IfOk result (λ e. e.stopped ≡ true → W.stopped watch.new) }
{
    let mut tools = Tools::new(alloc)?;
    let start = Standing::begin(&mut tools, origin, pids)?;
    let bounds = Bounds {
        moves: PROCS,
        limit: states,
        chain: MAX_CHAIN,
    };
    let found = search(alloc, &mut tools, start, bounds, watch)?;
    let told = tell(alloc, origin, &mut tools, &found)?;
    Ok(told)
}

// What is reported of what was found.
fn tell<'t, M: Machine, C: Allocator>(
    alloc: Global,
    origin: &Origin<'_, M, C>,
    tools: &mut Tools<'t, M, C>,
    found: &Found<Standing<'t, M, C>>,
) -> Result<Exploration, ExploreFault>
    ensures whole { IfOk result (λ e. e.whole ≡ found.now.whole) }
    ensures stopped { IfOk result (λ e. e.stopped ≡ found.now.stopped) }
    ensures tells { IfOk result (λ e. Tells M.call_of M.next_of (start_kernel (M.view origin.now.init) (M.view origin.now.shell) origin.now.stdin.now origin.now.files.now) (map kernel_of found.now.nodes.items) e.outcomes.items) }
    ensures busy { IfOk result (λ e. e.stuck ≡ None → All (IsFinishedOrBusy M.call_of M.next_of) (map kernel_of found.now.nodes.items)) }
    ensures asleep { IfOk result (λ e. IfSome e.stuck (λ pids. LeadsToSleep M.call_of M.next_of (start_kernel (M.view origin.now.init) (M.view origin.now.shell) origin.now.stdin.now origin.now.files.now) pids.items)) }
    ensures states { IfOk result (λ e. e.states ≡ length found.now.nodes.items) }
{
    let outcomes = outcomes_of(alloc, origin, &found.nodes)?;
    let stuck = stuck_of(alloc, origin, tools, &found.nodes)?;
    Ok(Exploration {
        whole: found.whole,
        stopped: found.stopped,
        states: found.nodes.len(),
        outcomes,
        stuck,
    })
}
