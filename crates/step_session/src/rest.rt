//! From a session to the outcomes of the runs that go on from it.

ghost use Rattle.std.specs.Prelude.{◌≡◌, ◌≢◌, ◌↔◌, ◌<◌, ◌++◌, ◌∷◌, [], IfOk, OnOk, Err, None, length, take, true, false};
ghost use Rattle.kernel_model.specs.Turns.{callers};
ghost use Rattle.step_session.specs.Outcomes.{GoOn, TellsRest};

use crate::rest_fault::RestFault;
use crate::session::Session;
use every_order::{Ahead, Exploration, Origin, Outcome, Watch, explore_after};
use kernel_events::{Event, Kernel};
use mem_files::laws::are_files;
use std::alloc::{Allocator, Global};
use user_calls::Machine;

// Adds the slot of the process whose call the event carries out, if it carries one out.
fn add_caller(pids: &mut Vec<u8>, event: Event) -> Result<(), RestFault>
    ensures added { OnOk result (pids.new.items ≡ pids.old.items ++ callers (event ∷ [])) }
    ensures fault { result ≢ Err RestFault.Full }
{
    let Event::Trap(_, pid) = event else {
        return Ok(());
    };
    let Ok(pid) = u8::try_from(pid) else {
        return Err(RestFault::TooLong);
    };
    match pids.push(pid) {
        Ok(()) => Ok(()),
        Err(_) => Err(RestFault::Memory),
    }
}

// The slots of the processes whose calls these events carry out, in their order.
fn callers_of(alloc: Global, events: &[Event]) -> Result<Vec<u8>, RestFault>
    ensures callers { IfOk result (λ pids. pids.items ≡ callers events.now) }
    ensures fault { result ≢ Err RestFault.Full }
{
    let mut pids = Vec::new(alloc);
    for event in events {
        add_caller(&mut pids, *event)?;
    }
    Ok(pids)
}

// Whether these turns come first.
fn begins_with(pids: &[u8], turns: &[u8]) -> bool
    ensures { result ≡ true → take (length turns.now) pids.now ≡ turns.now }
{
    if pids.len() < turns.len() {
        return false;
    }
    &pids[..turns.len()] == turns
}

// Whether the schedule of each outcome begins with these turns.
fn go_on(outcomes: &[Outcome], turns: &[u8]) -> bool
    ensures { result ≡ true → GoOn turns.now outcomes.now }
{
    outcomes
        .iter()
        .all(|outcome| begins_with(outcome.pids.as_slice(), turns))
}

/// Tries the orders in which a session's run can go on from where it is: all orders, unless they lead to more than `states` states.
/// `watch` sees how many were found, and may stop the search (`stopped`).
///
/// Each outcome that is reported is that of a finished run by its own schedule, which begins at the kernel's boot with the turns of the
/// session (`goes_on`), and no two are equal. Where every order was tried, they are those of all finished runs that go on from the
/// kernel as it is, on any harts, at which memory is never refused or nothing is full (`told`); where not every one was and the search
/// isn't said to be stopped, more than `states` states were found (`part`). `Full` exactly where something was full in the session
/// (`full`).
pub fn outcomes_from<M: Machine, C: Allocator, W: Watch>(
    alloc: Global,
    session: &Session<'_, M, C>,
    states: usize,
    watch: &mut W,
) -> Result<Exploration, RestFault>
    ensures told { IfOk result (TellsRest M.call_of M.next_of session.now) }
    ensures goes_on { IfOk result (λ found. GoOn (callers session.now.schedule) found.outcomes.items) }
    ensures part { IfOk result (λ found. found.whole ≡ false → found.stopped ≡ false → states < found.states) }
    ensures stopped { IfOk result (λ found. found.stopped ≡ true → W.stopped watch.new) }
    ensures full { (result ≡ Err RestFault.Full) ↔ (session.now.now.full ≢ None) }
{
    session.replays();
    session.is_by_turns();
    let kernel = session.kernel();
    if kernel.full().is_some() {
        return Err(RestFault::Full);
    }
    let pids = callers_of(alloc, kernel.schedule())?;
    let begun = session.beginning();
    let origin = Origin {
        init: begun.init,
        shell: begun.shell,
        stdin: begun.stdin,
        files: begun.files,
        ahead: Ahead {
            entries: false,
            slots: false,
        },
        is_full: false,
    };
    let found = explore_after(alloc, &origin, pids.as_slice(), states, watch)?;
    if !go_on(found.outcomes.as_slice(), pids.as_slice()) {
        return Err(RestFault::TooLong);
    }
    Ok(found)
}
