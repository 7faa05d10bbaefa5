//! The lines of a trace, written as they are made.

ghost use Rattle.std.specs.Prelude.{◌≡◌};
ghost use Rattle.script_load.specs.Line.{lines_of};

use crate::fault::TraceFault;
use command_text::append_command;
use kernel_events::Kernel;
use kernel_model::Event;
use run_trace::Tracer;
use script_load::{Line, Script};
use sh_machine::{Naming, User};
use std::alloc::{AllocError, Global};
use std::marker::Brand;
use trace_lines::{End, Head, TraceLines, end_line, head_line};
use user_calls::Machine;
use xvsh_read::{Start, Traces};

// After how many bytes of lines these are written.
const CHUNK_SIZE: usize = 65_536;

/// Writes the trace of the run of what was read by this schedule on so many harts, behind what is there. The run is made once more for it,
/// event by event.
///
/// `Unwritten` where the writer takes no more. `Memory` where memory is refused, also where an event can't take place: in the
/// run memory was refused then, and now it is not.
pub fn trace_run<T: Traces>(
    alloc: Global,
    traces: &mut T,
    start: &Start,
    schedule: &[Event],
    harts: u8,
) -> Result<(), TraceFault> {
    write_named::<Brand, T>(alloc, start, schedule, harts, traces)
}

// The first line of a trace.
fn first_line(alloc: Global, start: &Start, harts: u8) -> Result<Vec<u8>, AllocError> {
    let script = script_text(alloc, &start.script)?;
    let head = Head {
        script: script.as_slice(),
        profile: start.script.profile,
        harts,
        input: start.stdin.as_slice(),
        files: &start.files,
    };
    head_line(alloc, &head, Vec::new(alloc))
}

// The trace of a run of the script that `N` names.
fn write_named<N: Naming, T: Traces>(
    alloc: Global,
    start: &Start,
    schedule: &[Event],
    harts: u8,
    to: &mut T,
) -> Result<(), TraceFault>
    requires { lines_of start.now.script.lines ≡ N.script }
{
    let init = User::<Global, N>::init();
    let shell = User::shell(&start.script);
    let kernel = Kernel::boot(alloc, init, shell, start.stdin.as_slice(), &start.files)?;
    write_booted(kernel, start, schedule, harts, to)
}

// The trace of a run of this kernel, which is at its start.
fn write_booted<M: Machine, T: Traces>(
    kernel: Kernel<M, Global>,
    start: &Start,
    schedule: &[Event],
    harts: u8,
    to: &mut T,
) -> Result<(), TraceFault> {
    let mut tracer = Tracer::new(kernel);
    write_traced(&mut tracer, start, schedule, harts, to)
}

// The same of the kernel that is traced.
fn write_traced<M: Machine, T: Traces>(
    tracer: &mut Tracer<M, Global>,
    start: &Start,
    schedule: &[Event],
    harts: u8,
    to: &mut T,
) -> Result<(), TraceFault> {
    let alloc = *start.stdin.allocator();
    let first = first_line(alloc, start, harts)?;
    let lines = TraceLines::new(alloc, &start.script);
    let text = write_events(lines, tracer, schedule, first, to)?;
    write_end(alloc, tracer.kernel(), harts, text, to)
}

// Lets an event happen and writes its lines behind the text; the last lines are left.
fn write_event<M: Machine, T: Traces>(
    lines: &mut TraceLines<'_>,
    tracer: &mut Tracer<M, Global>,
    event: Event,
    text: Vec<u8>,
    to: &mut T,
) -> Result<Vec<u8>, TraceFault> {
    match lines.happen(tracer, event, text)? {
        Some(text) => write_chunk(text, to),
        None => Err(TraceFault::Memory),
    }
}

// The same of all events.
fn write_events<M: Machine, T: Traces>(
    mut lines: TraceLines<'_>,
    tracer: &mut Tracer<M, Global>,
    schedule: &[Event],
    first: Vec<u8>,
    to: &mut T,
) -> Result<Vec<u8>, TraceFault> {
    let mut text = first;
    for event in schedule {
        text = write_event(&mut lines, tracer, *event, text, to)?;
    }
    Ok(text)
}

// Writes the text and leaves none of it, where it is long.
fn write_chunk<T: Traces>(mut text: Vec<u8>, to: &mut T) -> Result<Vec<u8>, TraceFault> {
    if text.len() >= CHUNK_SIZE {
        to.write_trace(text.as_slice())?;
        text.clear();
    }
    Ok(text)
}

// Writes the text and the last line.
fn write_end<M: Machine, T: Traces>(
    alloc: Global,
    kernel: &Kernel<M, Global>,
    harts: u8,
    text: Vec<u8>,
    to: &mut T,
) -> Result<(), TraceFault> {
    let end = End {
        out: kernel.out(),
        diag: kernel.diag(),
        files: kernel.files(),
        full: kernel.full(),
        is_finished: kernel.is_finished(),
        schedule: kernel.schedule(),
        harts,
    };
    let text = end_line(alloc, &end, text)?;
    to.write_trace(text.as_slice())?;
    Ok(())
}

// A line of a script as text: a command as `append_command` writes it, and another line as it was.
fn add_line(line: &Line<Global>, text: &mut Vec<u8>) -> Result<(), AllocError> {
    match line {
        Line::Tree(tree) => append_command(tree, text)?,
        Line::Bad(_, bad) => text.extend_from_slice(bad.as_slice())?,
        Line::Cd(place) => {
            text.extend_from_slice(b"cd ".as_slice())?;
            text.extend_from_slice(place.as_slice())?;
        }
    }
    Ok(text.push(b'\n')?)
}

/// The lines of a script as text, each with LF. A loaded script keeps no bytes of its commands, so these are written anew.
pub fn script_text(alloc: Global, script: &Script<Global>) -> Result<Vec<u8>, AllocError> {
    let mut text = Vec::new(alloc);
    for line in script.lines.as_slice() {
        add_line(line, &mut text)?;
    }
    Ok(text)
}
