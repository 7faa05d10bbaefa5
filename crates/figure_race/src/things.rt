//! What processes share: the output, the messages, files, pipes and the table of processes, and which calls touch it.

use figure_words::{Run, lane_of};
use std::alloc::Allocator;
use trace_read::{Call, Event, Mode, Object, Part, PipeState, Process, State, Trap};

/// What processes share. A file goes by its name, and a pipe by the process that made it, since xv6's shell makes one a process.
#[derive(Clone, Copy)]
pub(crate) enum Thing<'t> {
    Out,
    Diag,
    File(&'t [u8]),
    Pipe(Process),
    Table,
}

// The process that made a pipe.
fn maker_of<A: Allocator>(run: &Run<'_, A>, pipe: usize) -> Option<Process> {
    let bands = run.bands.as_slice();
    let band = bands.get(bands.partition_point(|band| band.pipe < pipe))?;
    Some(band.maker)
}

// The file that a call touches.
fn file_of(trap: &Trap) -> Option<Part> {
    match (trap.call, trap.object) {
        (Call::Open(name, _), _) => Some(name),
        (Call::Read(_, _) | Call::Write(_, _), Some(Object::File(name, _))) => Some(name),
        _ => None,
    }
}

// Whether one of these states is of a pipe of this process, and an end of it was closed for good.
fn closes<A: Allocator>(run: &Run<'_, A>, states: &[PipeState], maker: Process) -> bool {
    states.iter().any(|state| {
        (state.closes_read || state.closes_write) && maker_of(run, state.pipe) == Some(maker)
    })
}

// Whether a call reads or writes the pipe of this process, or closes an end of it for good.
fn touches_pipe<A: Allocator>(run: &Run<'_, A>, trap: &Trap, maker: Process) -> bool {
    let states = run.trace.pipes.as_slice();
    let states = states.get(trap.pipes.first..trap.pipes.past).unwrap_or(&[]);
    let moves = match (trap.call, trap.object) {
        (
            Call::Read(_, _) | Call::Write(_, _),
            Some(Object::PipeRead(pipe) | Object::PipeWrite(pipe)),
        ) => maker_of(run, pipe) == Some(maker),
        _ => false,
    };
    moves || closes(run, states, maker)
}

/// Whether a call writes to the output or prints a message.
pub(crate) fn is_seen(trap: &Trap) -> bool {
    let is_write = matches!(trap.call, Call::Write(_, _));
    is_write && matches!(trap.object, Some(Object::Out | Object::Diag)) || trap.diag.is_some()
}

/// Whether a call touches a thing.
pub(crate) fn touches<A: Allocator>(run: &Run<'_, A>, trap: &Trap, thing: Thing<'_>) -> bool {
    let is_write = matches!(trap.call, Call::Write(_, _));
    match thing {
        Thing::Out => is_write && matches!(trap.object, Some(Object::Out)),
        Thing::Diag => is_write && matches!(trap.object, Some(Object::Diag)),
        Thing::File(name) => match file_of(trap) {
            Some(other) => run.trace.text(other) == name,
            None => false,
        },
        Thing::Pipe(maker) => touches_pipe(run, trap, maker),
        Thing::Table => {
            matches!(trap.call, Call::Fork | Call::Wait | Call::Exit)
                || matches!(trap.state, State::Zombie)
        }
    }
}

/// Whether it matters that a call comes before another one of the same thing: all do but those that only read a file, and waits that
/// take no process out.
pub(crate) fn matters(trap: &Trap) -> bool {
    match (trap.call, trap.object) {
        (Call::Open(_, Mode::Input), _) => false,
        (Call::Read(_, _), Some(Object::File(_, _))) => false,
        (Call::Wait, _) => trap.reaped.is_some(),
        _ => true,
    }
}

/// The next call of an event or behind it that touches a thing.
pub(crate) fn next_touch<'t, A: Allocator>(
    run: &Run<'t, A>,
    first: usize,
    thing: Thing<'_>,
) -> Option<&'t Event> {
    let events = run.trace.events.as_slice();
    let rest = events.get(first.saturating_sub(1)..).unwrap_or(&[]);
    rest.iter().find(|event| match &event.trap {
        Some(trap) => touches(run, trap, thing),
        None => false,
    })
}
