//! The line of an event.

use crate::fields::{full_word, write_call, write_doing, write_state};
use crate::files::write_file;
use crate::line::Line;
use crate::objects::{Kept, keep, write_descriptors, write_kept};
use crate::past::Past;
use crate::pipes::Pipes;
use command_text::Followed;
use fd_table::Mode as EntryMode;
use kernel_model::Event;
use proc_table::{PROCS, Pid, State};
use run_trace::{Kernel, Tracer};
use script_load::Script;
use std::alloc::{AllocError, Global};
use user_calls::{CallKind, CallSlot, Machine, Mode, ReplyKind};

/// Makes the lines of the events of a run, one after the other, from its start on.
#[derive(Drop)]
pub struct TraceLines<'t> {
    alloc: Global,
    followed: Followed<'t>,
    past: Past,
    pipes: Pipes,
    // How many bytes of the standard input were read.
    input: u64,
    // Of the event that is to happen: its call, what the call's descriptor has open and at which byte that goes on, and whether
    // the file that it opens is there.
    call: CallSlot,
    kept: Option<Kept>,
    offset: u64,
    was_there: bool,
    command: Vec<u8>,
}

impl<'t> TraceLines<'t> {
    /// The start of a run of this script.
    pub fn new(alloc: Global, script: &'t Script<Global>) -> Self {
        TraceLines {
            alloc,
            followed: Followed::new(script),
            past: Past::new(),
            pipes: Pipes::new(alloc),
            input: 0,
            call: CallSlot::new(),
            kept: None,
            offset: 0,
            was_there: false,
            command: Vec::new(alloc),
        }
    }

    /// The event takes place, and its line is added to the text; `None` if it can't.
    ///
    /// `AllocError` where memory for the schedule or for the line is refused. Then no more lines can be made.
    pub fn happen<M: Machine>(
        &mut self,
        tracer: &mut Tracer<M, Global>,
        event: Event,
        text: Vec<u8>,
    ) -> Result<Option<Vec<u8>>, AllocError> {
        self.look(tracer.kernel(), event)?;
        if !tracer.happen(event)? {
            return Ok(None);
        }
        let mut line = Line::begin(self.alloc, text)?;
        match event {
            Event::Dispatch(hart, pid) => {
                if let Some(pid) = Pid::new(pid as usize) {
                    self.write_dispatch(&mut line, tracer, hart, pid)?;
                }
            }
            Event::Trap(hart, pid) => {
                if let Some(pid) = Pid::new(pid as usize) {
                    self.write_trap(&mut line, tracer, hart, pid)?;
                }
            }
        }
        Ok(Some(line.end()?))
    }

    // Looks at what the event may change, before it happens.
    fn look<M: Machine>(
        &mut self,
        kernel: &Kernel<M, Global>,
        event: Event,
    ) -> Result<(), AllocError> {
        self.kept = None;
        self.was_there = false;
        let Event::Trap(hart, number) = event else {
            return Ok(());
        };
        let index = number as usize;
        let Some(pid) = Pid::new(index) else {
            return Ok(());
        };
        if !kernel.ask(hart, index, &mut self.call) {
            return Ok(());
        }
        match self.call.kind() {
            CallKind::Read(fd, _) | CallKind::Write(fd) | CallKind::Close(fd) | CallKind::Dup(fd) =>
                {
                    if let Some(object) = kernel.object(pid, fd) {
                        self.kept = Some(keep(self.alloc, object)?);
                        self.offset = kernel.offset(pid, fd).unwrap_or(0);
                    }
                }
            CallKind::OpenFile(_) => {
                self.was_there = kernel.files().get(self.call.bytes()).is_some();
            }
            _ => {}
        }
        Ok(())
    }

    // What both kinds of events begin with.
    fn write_process<M: Machine>(
        &mut self,
        line: &mut Line,
        tracer: &Tracer<M, Global>,
        hart: u8,
        pid: Pid,
    ) -> Result<(), AllocError> {
        line.count("hart", u64::from(hart))?;
        line.pid("pid", pid)?;
        line.count("born", self.past.born(pid))?;
        line.pid("parent", tracer.kernel().parent(pid).unwrap_or(Pid::init()))?;
        write_doing(line, self.followed.doing(pid), &mut self.command)
    }

    fn write_dispatch<M: Machine>(
        &mut self,
        line: &mut Line,
        tracer: &Tracer<M, Global>,
        hart: u8,
        pid: Pid,
    ) -> Result<(), AllocError> {
        let number = tracer.kernel().schedule().len() as u64;
        self.past.dispatch(pid, number);
        line.word("kind", "dispatch")?;
        line.count("n", number)?;
        self.write_process(line, tracer, hart, pid)
    }

    fn write_trap<M: Machine>(
        &mut self,
        line: &mut Line,
        tracer: &Tracer<M, Global>,
        hart: u8,
        pid: Pid,
    ) -> Result<(), AllocError> {
        let number = tracer.kernel().schedule().len() as u64;
        line.word("kind", "trap")?;
        line.count("n", number)?;
        line.count("from", self.past.from(pid))?;
        self.write_process(line, tracer, hart, pid)?;
        write_call(line, tracer.call(), self.followed.doing(pid))?;
        if self.past.slept(pid) {
            line.truth("again", true)?;
        }
        self.write_object(line, tracer.kernel(), pid)?;
        let state = tracer.kernel().state(pid);
        write_state(line, state, tracer.kernel().reply(pid))?;
        self.past.trap(pid, matches!(state, State::Asleep(_)));
        self.write_moved(line, tracer, pid)?;
        self.write_processes(line, tracer, pid, number)?;
        self.write_pipes(line, tracer, pid, number)?;
        self.write_files(line, tracer, pid)?;
        write_output(line, tracer)
    }

    // What the call's descriptor had open, and at which byte that goes on now.
    fn write_object<M: Machine>(
        &mut self,
        line: &mut Line,
        kernel: &Kernel<M, Global>,
        pid: Pid,
    ) -> Result<(), AllocError> {
        let (CallKind::Read(fd, _)
        | CallKind::Write(fd)
        | CallKind::Close(fd)
        | CallKind::Dup(fd)) = self.call.kind()
        else {
            return Ok(());
        };
        if let (Some(Kept::Input), Some(reply)) = (&self.kept, kernel.reply(pid)) {
            self.input = self.input.saturating_add(reply.bytes().len() as u64);
        }
        let offset = match &self.kept {
            Some(Kept::Input) => Some(self.input),
            Some(Kept::File(_, _)) => Some(kernel.offset(pid, fd).unwrap_or(self.offset)),
            _ => None,
        };
        self.write_kept(line, offset)
    }

    fn write_kept(&self, line: &mut Line, offset: Option<u64>) -> Result<(), AllocError> {
        match &self.kept {
            Some(kept) => write_kept(line, kept, offset),
            None => Ok(()),
        }
    }

    // How many bytes this try read or wrote, and whether it met the end of what it reads.
    fn write_moved<M: Machine>(
        &self,
        line: &mut Line,
        tracer: &Tracer<M, Global>,
        pid: Pid,
    ) -> Result<(), AllocError> {
        match self.call.kind() {
            CallKind::Read(_, size) => {
                let count = self.read(tracer.kernel(), pid);
                line.count("moved", count.unwrap_or(0) as u64)?;
                if count == Some(0) && size > 0 {
                    line.truth("eof", true)?;
                }
                Ok(())
            }
            CallKind::Write(_) => line.count("moved", self.written(tracer.kernel(), pid) as u64),
            _ => Ok(()),
        }
    }

    // How many bytes a read got, if it is over and was not refused.
    fn read<M: Machine>(&self, kernel: &Kernel<M, Global>, pid: Pid) -> Option<usize> {
        let reply = kernel.reply(pid)?;
        if has_read(kernel.state(pid), reply.kind()) {
            Some(reply.bytes().len())
        } else {
            None
        }
    }

    // How many bytes a write put.
    fn written<M: Machine>(&self, kernel: &Kernel<M, Global>, pid: Pid) -> usize {
        if let Some(Kept::PipeWrite(name)) = &self.kept {
            return held(kernel, *name).saturating_sub(self.pipes.held(*name));
        }
        if is_done(kernel, pid) {
            self.call.bytes().len()
        } else {
            0
        }
    }

    // The child that was made, the one that is gone, those that init got, and those that were woken.
    fn write_processes<M: Machine>(
        &mut self,
        line: &mut Line,
        tracer: &Tracer<M, Global>,
        pid: Pid,
        number: u64,
    ) -> Result<(), AllocError> {
        if let Some(child) = follow(&mut self.followed, tracer, pid, self.call.kind()) {
            self.past.fork(pid, child, number);
            self.write_child(line, child)?;
        }
        match self.call.kind() {
            CallKind::Wait => self.write_reaped(line, tracer)?,
            CallKind::Exit => self.write_adopted(line, tracer.kernel(), pid)?,
            _ => {}
        }
        write_pids(line, "woken", |other| tracer.is_woken(other))
    }

    // The child that a wait took away, if it did.
    fn write_reaped<M: Machine>(
        &mut self,
        line: &mut Line,
        tracer: &Tracer<M, Global>,
    ) -> Result<(), AllocError> {
        match found(|other| tracer.is_gone(other)) {
            Some(gone) => {
                line.begin_object("reaped")?;
                line.pid("pid", gone)?;
                line.count("born", self.past.born(gone))?;
                line.end_object()
            }
            None => Ok(()),
        }
    }

    // A child, and what it carries out.
    fn write_child(&mut self, line: &mut Line, child: Pid) -> Result<(), AllocError> {
        line.begin_object("child")?;
        line.pid("pid", child)?;
        write_doing(line, self.followed.doing(child), &mut self.command)?;
        line.end_object()
    }

    // The children of a process that has exited.
    fn write_adopted<M: Machine>(
        &mut self,
        line: &mut Line,
        kernel: &Kernel<M, Global>,
        pid: Pid,
    ) -> Result<(), AllocError> {
        let past = &self.past;
        write_pids(line, "adopted", |other| is_child(past, kernel, pid, other))?;
        for index in 0..PROCS {
            if let Some(other) = Pid::new(index) {
                if is_child(&self.past, kernel, pid, other) {
                    self.past.adopt(other);
                }
            }
        }
        Ok(())
    }

    // The pipes that have changed.
    fn write_pipes<M: Machine>(
        &mut self,
        line: &mut Line,
        tracer: &Tracer<M, Global>,
        pid: Pid,
        number: u64,
    ) -> Result<(), AllocError> {
        let kernel = tracer.kernel();
        match (self.call.kind(), &self.kept) {
            (CallKind::Read(_, _), Some(Kept::PipeRead(name))) => {
                self.pipes.fill(*name, held(kernel, *name));
            }
            (CallKind::Write(_), Some(Kept::PipeWrite(name))) => {
                self.pipes.fill(*name, held(kernel, *name));
            }
            (CallKind::MakePipe, _) => {
                if is_done(kernel, pid) {
                    self.pipes.make(number)?;
                    self.pipes.count_holders(kernel);
                }
            }
            (CallKind::Fork, _) | (CallKind::Exit, _) | (CallKind::Close(_), _) => {
                self.pipes.count_holders(kernel);
            }
            _ => return Ok(()),
        }
        self.pipes.write_changed(line)
    }

    // The file that the call made, emptied or wrote, and the open descriptors where they may have changed.
    fn write_files<M: Machine>(
        &self,
        line: &mut Line,
        tracer: &Tracer<M, Global>,
        pid: Pid,
    ) -> Result<(), AllocError> {
        let kernel = tracer.kernel();
        let is_over = is_done(kernel, pid);
        match (self.call.kind(), &self.kept) {
            (CallKind::Write(_), Some(Kept::File(name, mode))) => {
                if is_over && *mode != EntryMode::Input {
                    write_named(line, kernel, name.as_slice())?;
                }
                Ok(())
            }
            (CallKind::OpenFile(mode), _) => {
                if is_over && (mode == Mode::Fresh || (mode != Mode::Input && !self.was_there)) {
                    write_named(line, kernel, self.call.bytes())?;
                }
                write_descriptors(line, kernel, pid)
            }
            (CallKind::MakePipe, _) | (CallKind::Close(_), _) | (CallKind::Dup(_), _) => {
                write_descriptors(line, kernel, pid)
            }
            _ => Ok(()),
        }
    }
}

// The file of this name, alone in a list.
fn write_named<M: Machine>(
    line: &mut Line,
    kernel: &Kernel<M, Global>,
    name: &[u8],
) -> Result<(), AllocError> {
    line.begin_list("files")?;
    if let Some(bytes) = kernel.files().get(name) {
        write_file(line, name, bytes)?;
    }
    line.end_list()
}

// What was added to the output and to the diagnostics, and what was full for the first time.
fn write_output<M: Machine>(line: &mut Line, tracer: &Tracer<M, Global>) -> Result<(), AllocError> {
    if !tracer.out().is_empty() {
        line.bytes("out", tracer.out())?;
    }
    if !tracer.diag().is_empty() {
        line.bytes("diag", tracer.diag())?;
    }
    match tracer.full() {
        Some(full) => line.word("full", full_word(full)),
        None => Ok(()),
    }
}

// Whether a read is over, and was not refused.
fn has_read(state: State, reply: ReplyKind) -> bool {
    matches!(state, State::Runnable) && matches!(reply, ReplyKind::Bytes)
}

// Whether the process's last call is over, and was not refused.
fn is_done<M: Machine>(kernel: &Kernel<M, Global>, pid: Pid) -> bool {
    if !matches!(kernel.state(pid), State::Runnable) {
        return false;
    }
    match kernel.reply(pid) {
        Some(reply) => !matches!(reply.kind(), ReplyKind::Refused),
        None => false,
    }
}

/// What the processes carry out follows the process's last call, which was of this kind. Returns the child that it made, if it was a
/// fork that did.
pub fn follow<M: Machine>(
    followed: &mut Followed<'_>,
    tracer: &Tracer<M, Global>,
    pid: Pid,
    kind: CallKind,
) -> Option<Pid> {
    let child = match kind {
        CallKind::Fork => found(|other| tracer.is_made(other)),
        _ => None,
    };
    let is_over = match kind {
        CallKind::Fork => child.is_some(),
        _ => is_done(tracer.kernel(), pid),
    };
    followed.follow(pid, kind, is_over, child);
    child
}

// Whether the process was a child of the other, and has init as its parent now.
fn is_child<M: Machine>(past: &Past, kernel: &Kernel<M, Global>, parent: Pid, pid: Pid) -> bool {
    past.parent(pid) == parent.index() && kernel.parent(pid) == Some(Pid::init()) && pid != parent
}

fn held<M: Machine>(kernel: &Kernel<M, Global>, name: u64) -> usize {
    match kernel.pipe(name) {
        Some(status) => status.held,
        None => 0,
    }
}

// The lowest slot that passes the test.
fn found<F: Fn(Pid) -> bool>(test: F) -> Option<Pid>
    requires { F.IsAlwaysCallable test }
{
    for index in 0..PROCS {
        if let Some(pid) = Pid::new(index) {
            if test(pid) {
                return Some(pid);
            }
        }
    }
    None
}

// A list of the slots that pass the test, if there are some.
fn write_pids<F: Fn(Pid) -> bool>(line: &mut Line, key: &str, test: F) -> Result<(), AllocError>
    requires { F.IsAlwaysCallable test }
{
    let mut has_begun = false;
    for index in 0..PROCS {
        if let Some(pid) = Pid::new(index) {
            if test(pid) {
                if !has_begun {
                    line.begin_list(key)?;
                    has_begun = true;
                }
                line.raw_count(pid.index() as u64)?;
            }
        }
    }
    if has_begun { line.end_list() } else { Ok(()) }
}
