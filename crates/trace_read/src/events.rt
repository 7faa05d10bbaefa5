//! The line of an event.

use crate::fault::Wrong;
use crate::fields::{count, field, is_said, pid, pids, small, within};
use crate::keeping::Kept;
use crate::pieces::{
    read_call, read_doing, read_files, read_full, read_object, read_pipes, read_process, read_state,
};
use crate::trace::{Child, Event, Process, Trap};
use json::Value;
use std::alloc::Allocator;

// The child of a fork.
fn read_child<A: Allocator + Copy>(
    kept: &mut Kept<A>,
    value: &Value<'_, A>,
) -> Result<Option<Child>, Wrong> {
    match value.get("child") {
        None => Ok(None),
        Some(child) => Ok(Some(Child {
            pid: pid(child, "pid")?,
            doing: read_doing(kept, child)?,
        })),
    }
}

fn read_reaped<A: Allocator>(value: &Value<'_, A>) -> Result<Option<Process>, Wrong> {
    match value.get("reaped") {
        None => Ok(None),
        Some(reaped) => Ok(Some(read_process(reaped)?)),
    }
}

fn read_moved<A: Allocator>(value: &Value<'_, A>) -> Result<Option<usize>, Wrong> {
    match value.get("moved") {
        None => Ok(None),
        Some(_) => Ok(Some(count(value, "moved")?)),
    }
}

// What a trap has and a dispatch hasn't.
fn read_trap<A: Allocator + Copy>(
    kept: &mut Kept<A>,
    value: &Value<'_, A>,
    n: usize,
) -> Result<Trap, Wrong> {
    Ok(Trap {
        from: within(value, "from", n)?,
        call: read_call(kept, field(value, "call")?)?,
        is_again: is_said(value, "again")?,
        object: read_object(kept, value, n)?,
        state: read_state(kept, value, n)?,
        moved: read_moved(value)?,
        is_at_end: is_said(value, "eof")?,
        child: read_child(kept, value)?,
        reaped: read_reaped(value)?,
        woken: pids(value, "woken")?,
        adopted: pids(value, "adopted")?,
        pipes: read_pipes(kept, value, n)?,
        files: read_files(kept, value, n)?,
        out: kept.keep_optional(value, "out")?,
        diag: kept.keep_optional(value, "diag")?,
        full: read_full(value)?,
    })
}

// Whether the trap ends what this event began: the process ran on the hart since.
fn ends<A: Allocator + Copy>(kept: &Kept<A>, event: &Event, trap: &Trap) -> bool {
    match kept.events.get(trap.from.wrapping_sub(1)) {
        Some(before) => {
            before.trap.is_none() && before.hart == event.hart && before.process == event.process
        }
        None => false,
    }
}

// Reads the line of an event behind those that are kept, on one of so many harts.
pub(crate) fn read_event<A: Allocator + Copy>(
    kept: &mut Kept<A>,
    value: &Value<'_, A>,
    is_trap: bool,
    harts: u8,
) -> Result<(), Wrong> {
    let n = kept.events.len() + 1;
    if count(value, "n")? != n {
        return Err(Wrong::Field("n"));
    }
    let mut event = Event {
        number: n,
        hart: small(value, "hart", harts.saturating_sub(1))?,
        process: read_process(value)?,
        parent: pid(value, "parent")?,
        doing: read_doing(kept, value)?,
        trap: None,
    };
    if is_trap {
        let trap = read_trap(kept, value, n)?;
        if !ends(kept, &event, &trap) {
            return Err(Wrong::Field("from"));
        }
        event.trap = Some(trap);
    }
    kept.events.push(event).map_err(|_| Wrong::Memory)
}
