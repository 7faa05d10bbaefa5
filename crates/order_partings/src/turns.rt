//! Schedules of turns.

ghost use Rattle.std.specs.Prelude.{◌≡◌, ◌++◌, ◌∷◌, [], IfOk, OnOk};
ghost use Rattle.kernel_model.specs.declared.events.Event.TheVariants.{Dispatch, Trap};
ghost use Rattle.kernel_model.specs.Turns.{quiet_turns, turn_events};

use kernel_model::Event;
use std::alloc::{AllocError, Global};

// Adds the two events of a turn.
fn add_turn(events: &mut Vec<Event>, pid: u8) -> Result<(), AllocError>
    ensures { OnOk result (events.new.items ≡ events.old.items ++ Dispatch 0 pid ∷ Trap 0 pid ∷ []) }
{
    events.push(Event::Dispatch(0, u32::from(pid)))?;
    events.push(Event::Trap(0, u32::from(pid)))?;
    Ok(())
}

/// The schedule of turns of these processes: each is given to hart 0, and at once makes its call.
pub fn events_of(alloc: Global, pids: &[u8]) -> Result<Vec<Event>, AllocError>
    ensures { IfOk result (λ events. events.items ≡ turn_events (quiet_turns pids.now)) }
{
    let mut events = Vec::new(alloc);
    for pid in pids {
        add_turn(&mut events, *pid)?;
    }
    Ok(events)
}
