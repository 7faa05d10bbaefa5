//! A trace as plain data.

use std::alloc::Allocator;

/// Some of a list, or of the bytes of a trace: from this place on, and before the other. Places are counted from 0.
#[derive(Clone, Copy)]
pub struct Part {
    pub first: usize,
    pub past: usize,
}

/// A process: its slot, and the event of the fork that made it, 0 of init and the first shell.
#[derive(Clone, Copy, PartialEq, Eq)]
pub struct Process {
    pub pid: u8,
    pub born: usize,
}

/// What a shell carries out.
#[derive(Clone, Copy, PartialEq, Eq)]
pub enum Node {
    Script,
    Exec,
    Redir,
    Pipe,
    List,
    Back,
    Bad,
}

/// The program that a process runs, and what it carries out for which line of the script, counted from 1.
#[derive(Clone, Copy)]
pub struct Doing {
    pub program: Part,
    pub node: Option<Node>,
    pub command: Option<Part>,
    pub line: Option<usize>,
}

/// How a file is opened: for `<`, for `>`, and for `>>` under each of the two profiles.
#[derive(Clone, Copy)]
pub enum Mode {
    Input,
    Fresh,
    Over,
    Append,
}

/// What a descriptor has open. A pipe goes by the event that made it.
#[derive(Clone, Copy)]
pub enum Object {
    Input,
    Out,
    Diag,
    File(Part, Mode),
    PipeRead(usize),
    PipeWrite(usize),
}

/// A system call with its arguments.
#[derive(Clone, Copy)]
pub enum Call {
    Fork,
    Exit,
    Wait,
    Pipe,
    /// The words, as a part of the trace's `words`, and whether the first is a program.
    Exec(Part, bool),
    /// The descriptor, and how many bytes are asked for.
    Read(usize, usize),
    /// The descriptor, and the bytes.
    Write(usize, Part),
    /// The name of the file, and how it is opened.
    Open(Part, Mode),
    Close(usize),
    Dup(usize),
}

/// What a call returned.
#[derive(Clone, Copy)]
pub enum Reply {
    Done,
    Refused,
    Bytes(Part),
    Fd(usize),
    /// The descriptors of the two ends of a new pipe: to read, and to write.
    Ends(usize, usize),
}

/// What a process sleeps on.
#[derive(Clone, Copy)]
pub enum Channel {
    Children,
    PipeBytes(usize),
    PipeRoom(usize),
}

/// What a process is after its call.
#[derive(Clone, Copy)]
pub enum State {
    Runnable(Reply),
    Asleep(Channel),
    Zombie,
}

/// The child that a fork made.
#[derive(Clone, Copy)]
pub struct Child {
    pub pid: u8,
    pub doing: Doing,
}

/// What was full.
#[derive(Clone, Copy)]
pub enum Full {
    Procs,
    Open,
    Descriptors,
    Files,
    Size,
    Memory,
}

/// A call that was carried out.
#[derive(Clone, Copy)]
pub struct Trap {
    /// The number of the event by which the process began to run.
    pub from: usize,
    pub call: Call,
    /// Whether its last try put the process to sleep.
    pub is_again: bool,
    /// What the call's descriptor had open.
    pub object: Option<Object>,
    pub state: State,
    /// How many bytes this try moved.
    pub moved: Option<usize>,
    /// Whether a read met the end.
    pub is_at_end: bool,
    pub child: Option<Child>,
    pub reaped: Option<Process>,
    /// Which processes were woken, a bit each.
    pub woken: u64,
    /// Which processes init got, a bit each.
    pub adopted: u64,
    /// The pipes that are others than before, in the trace's `pipes`.
    pub pipes: Part,
    /// The file that was changed, in the trace's `files`.
    pub files: Part,
    pub out: Option<Part>,
    pub diag: Option<Part>,
    pub full: Option<Full>,
}

/// A process began to run on a hart, or its call was carried out.
#[derive(Clone, Copy)]
pub struct Event {
    /// Its number, counted from 1.
    pub number: usize,
    pub hart: u8,
    pub process: Process,
    /// The parent afterwards.
    pub parent: u8,
    pub doing: Doing,
    /// `None` of a dispatch.
    pub trap: Option<Trap>,
}

/// A pipe after an event.
#[derive(Clone, Copy)]
pub struct PipeState {
    /// The number of the event.
    pub event: usize,
    /// The event that made the pipe.
    pub pipe: usize,
    /// How many bytes it holds, 512 at most.
    pub held: usize,
    /// Which processes hold the end, a bit each.
    pub readers: u64,
    pub writers: u64,
    /// Whether the event closed the end for good.
    pub closes_read: bool,
    pub closes_write: bool,
}

/// A file after an event; 0 is before the first, and the number of events plus 1 after the last.
#[derive(Clone, Copy)]
pub struct FileState {
    pub event: usize,
    pub name: Part,
    pub length: usize,
    /// Its first bytes.
    pub head: Part,
}

/// What the run began with.
#[derive(Clone, Copy)]
pub struct Head {
    pub script: Part,
    pub appends: bool,
    /// 1 to 8.
    pub harts: u8,
    /// How long the standard input was.
    pub input: usize,
    /// The files before the run.
    pub files: Part,
}

/// What the run came to.
#[derive(Clone, Copy)]
pub struct End {
    pub is_finished: bool,
    pub out: Part,
    pub diag: Part,
    pub full: Option<Full>,
    /// The files after the run.
    pub files: Part,
}

/// A whole trace.
#[derive(Drop)]
pub struct Trace<A: Allocator> {
    /// All bytes that parts name.
    pub bytes: Vec<u8, A>,
    /// The words of commands.
    pub words: Vec<Part, A>,
    pub events: Vec<Event, A>,
    /// What events made of pipes, in order.
    pub pipes: Vec<PipeState, A>,
    /// The files before the run, those that events changed, in order, and the files after the run.
    pub files: Vec<FileState, A>,
    pub head: Head,
    pub end: End,
}

impl<A: Allocator> Trace<A> {
    /// The bytes of a part; none where it is no part of them.
    pub fn text(&self, part: Part) -> &[u8] {
        self.bytes
            .as_slice()
            .get(part.first..part.past)
            .unwrap_or(&[])
    }
}
