//! Diagnostics with the lines of the script that they come from.
ghost use Rattle.std.specs.Prelude.{◌≡◌, ◌++◌, ◌∷◌, ℕ, List, [], IfOk, OnOk};
ghost use Rattle.script_load.specs.Line.{lines_of};
ghost use Rattle.xvsh_traces.specs.Lined.{IsLined, line_mark};

use crate::fault::TraceFault;
use command_text::{Doing, Followed};
use kernel_events::Kernel;
use kernel_model::Event;
use proc_table::Pid;
use run_trace::Tracer;
use sh_machine::{Naming, User};
use std::alloc::{AllocError, Global};
use std::marker::Brand;
use trace_lines::follow;
use user_calls::Machine;
use xvsh_read::Start;

// Before the byte at this place of the diagnostics, counted from 0, stands the number of this line of the script.
#[derive(Clone, Copy)]
struct Mark {
    place: usize,
    line: usize,
}

// The marks of the diagnostics so far.
#[derive(Drop)]
struct Marking<'t> {
    followed: Followed<'t>,
    marks: Vec<Mark>,
    // How many bytes the diagnostics have.
    count: usize,
    // Whether the last of them ends no line.
    is_inside: bool,
}

// The line of the script that a process carries out; of the first shell the one that it is at.
fn line_of(doing: Doing<'_>) -> Option<usize> {
    match doing {
        Doing::Script(line) => Some(line),
        _ => doing.line(),
    }
}

impl Marking<'_> {
    // What a process that carries out this line adds to the diagnostics is marked where it begins a line of them.
    fn add(&mut self, line: Option<usize>, added: &[u8]) -> Result<(), AllocError> {
        for byte in added {
            if let (false, Some(line)) = (self.is_inside, line) {
                self.marks.push(Mark {
                    place: self.count,
                    line,
                })?;
            }
            self.is_inside = *byte != b'\n';
            self.count = self.count.saturating_add(1);
        }
        Ok(())
    }

    // Marks what the call of this process added, which was just made.
    fn note_call<M: Machine>(
        &mut self,
        tracer: &Tracer<M, Global>,
        pid: Pid,
    ) -> Result<(), AllocError> {
        let line = line_of(self.followed.doing(pid));
        let noted = self.add(line, tracer.diag());
        follow(&mut self.followed, tracer, pid, tracer.call().kind());
        noted
    }

    // Marks what the event added that just happened.
    fn note<M: Machine>(
        &mut self,
        tracer: &Tracer<M, Global>,
        event: Event,
    ) -> Result<(), AllocError> {
        match event {
            Event::Trap(_, number) => match Pid::new(number as usize) {
                Some(pid) => self.note_call(tracer, pid),
                None => Ok(()),
            },
            _ => Ok(()),
        }
    }
}

// Lets an event happen, and marks what it adds to the diagnostics.
fn mark_event<M: Machine>(
    tracer: &mut Tracer<M, Global>,
    marking: &mut Marking<'_>,
    event: Event,
) -> Result<(), TraceFault> {
    let is_made = tracer.happen(event)?;
    if is_made {
        Ok(marking.note(tracer, event)?)
    } else {
        Err(TraceFault::Memory)
    }
}

// Lets the events happen, and marks what they add.
fn mark_all<M: Machine>(
    tracer: &mut Tracer<M, Global>,
    marking: &mut Marking<'_>,
    schedule: &[Event],
) -> Result<(), TraceFault> {
    for event in schedule {
        mark_event(tracer, marking, *event)?;
    }
    Ok(())
}

// The marks of the diagnostics of a run of this kernel, which is at its start.
fn marks_by<M: Machine>(
    alloc: Global,
    start: &Start,
    kernel: Kernel<M, Global>,
    schedule: &[Event],
) -> Result<Vec<Mark>, TraceFault> {
    let mut tracer = Tracer::new(kernel);
    let mut marking = Marking {
        followed: Followed::new(&start.script),
        marks: Vec::new(alloc),
        count: 0,
        is_inside: false,
    };
    mark_all(&mut tracer, &mut marking, schedule)?;
    Ok(marking.marks)
}

// The same of a run of the script that `N` names, which is made again by its schedule.
fn marks_of<N: Naming>(
    alloc: Global,
    start: &Start,
    schedule: &[Event],
) -> Result<Vec<Mark>, TraceFault>
    requires { lines_of start.now.script.lines ≡ N.script }
{
    let init = User::<Global, N>::init();
    let shell = User::shell(&start.script);
    let kernel = Kernel::boot(alloc, init, shell, start.stdin.as_slice(), &start.files)?;
    marks_by(alloc, start, kernel, schedule)
}

// Adds `line N: `.
fn add_mark(alloc: Global, line: usize, lined: &mut Vec<u8>) -> Result<(), AllocError>
    ensures { OnOk result (lined.new.items ≡ lined.old.items ++ line_mark line) }
{
    let mark = format!(in alloc; "line {line}: ")?;
    lined.extend_from_slice(mark.as_bytes())
}

// Adds this mark if it is one of this place, and returns whether it is.
fn add_mark_at(
    alloc: Global,
    mark: Option<&Mark>,
    place: usize,
    lined: &mut Vec<u8>,
) -> Result<bool, AllocError>
    ensures { (diag : List ℕ) → IsLined diag lined.old.items → OnOk result (IsLined diag lined.new.items) }
{
    let Some(mark) = mark else {
        return Ok(false);
    };
    if mark.place != place {
        return Ok(false);
    }
    add_mark(alloc, mark.line, lined)?;
    Ok(true)
}

// Adds a byte, and before it this mark if it is one of this place, and returns whether it is.
fn add_byte(
    alloc: Global,
    mark: Option<&Mark>,
    place: usize,
    byte: u8,
    lined: &mut Vec<u8>,
) -> Result<bool, AllocError>
    ensures { (diag : List ℕ) → IsLined diag lined.old.items → OnOk result (IsLined (diag ++ byte ∷ []) lined.new.items) }
{
    let is_marked = add_mark_at(alloc, mark, place, lined)?;
    lined.push(byte)?;
    Ok(is_marked)
}

// The diagnostics with these marks, which stand in their order.
fn with_marks(alloc: Global, diag: &[u8], marks: &[Mark]) -> Result<Vec<u8>, AllocError>
    ensures { IfOk result (λ lined. IsLined diag.now lined.items) }
{
    let mut lined = Vec::new(alloc);
    let mut next: usize = 0;
    for place in 0..diag.len() {
        if add_byte(alloc, marks.get(next), place, diag[place], &mut lined)? {
            next = next.saturating_add(1);
        }
    }
    Ok(lined)
}

/// What a run of what was read printed on standard error, with `line N: ` before each line of its diagnostics: the line of the script
/// whose command wrote it. The run is made once more by its schedule.
///
/// `Memory` where memory is refused, also where an event can't take place: in the run memory was refused then, and now it is not.
pub fn lined(
    alloc: Global,
    start: &Start,
    schedule: &[Event],
    diag: &[u8],
) -> Result<Vec<u8>, TraceFault>
    ensures { IfOk result (λ lined. IsLined diag.now lined.items) }
{
    let marks = marks_of::<Brand>(alloc, start, schedule)?;
    let lined = with_marks(alloc, diag, marks.as_slice())?;
    Ok(lined)
}
