//! Calls, replies, objects, pipes and files of a line.

use crate::fault::Wrong;
use crate::fields::{count, field, has_word, list, pid, pids, truth, within, word};
use crate::keeping::Kept;
use crate::trace::{
    Call, Channel, Doing, FileState, Full, Mode, Node, Object, Part, PipeState, Process, Reply,
    State,
};
use json::Value;
use std::alloc::Allocator;

// How many bytes a pipe holds at most.
const PIPE_SIZE: usize = 512;

fn mode_of<A: Allocator>(value: &Value<'_, A>) -> Result<Mode, Wrong> {
    match word(value, "mode")? {
        "input" => Ok(Mode::Input),
        "fresh" => Ok(Mode::Fresh),
        "over" => Ok(Mode::Over),
        "append" => Ok(Mode::Append),
        _ => Err(Wrong::Field("mode")),
    }
}

fn node_of<A: Allocator>(value: &Value<'_, A>) -> Result<Node, Wrong> {
    match word(value, "node")? {
        "script" => Ok(Node::Script),
        "exec" => Ok(Node::Exec),
        "redir" => Ok(Node::Redir),
        "pipe" => Ok(Node::Pipe),
        "list" => Ok(Node::List),
        "back" => Ok(Node::Back),
        "bad" => Ok(Node::Bad),
        _ => Err(Wrong::Field("node")),
    }
}

fn full_of(word: &str) -> Result<Full, Wrong> {
    match word {
        "procs" => Ok(Full::Procs),
        "open" => Ok(Full::Open),
        "descriptors" => Ok(Full::Descriptors),
        "files" => Ok(Full::Files),
        "size" => Ok(Full::Size),
        "memory" => Ok(Full::Memory),
        _ => Err(Wrong::Field("full")),
    }
}

// What was full; nothing where the field isn't there, or is null.
pub(crate) fn read_full<A: Allocator>(value: &Value<'_, A>) -> Result<Option<Full>, Wrong> {
    match value.get("full") {
        None | Some(Value::Null) => Ok(None),
        Some(_) => Ok(Some(full_of(word(value, "full")?)?)),
    }
}

// The program, the node, the command and the line.
pub(crate) fn read_doing<A: Allocator + Copy>(
    kept: &mut Kept<A>,
    value: &Value<'_, A>,
) -> Result<Doing, Wrong> {
    let program = kept.keep_field(value, "prog")?;
    let node = match value.get("node") {
        None => None,
        Some(_) => Some(node_of(value)?),
    };
    let command = kept.keep_optional(value, "cmd")?;
    let line = match value.get("line") {
        None => None,
        Some(_) => Some(count(value, "line")?),
    };
    Ok(Doing {
        program,
        node,
        command,
        line,
    })
}

// A process by its slot and its birth.
pub(crate) fn read_process<A: Allocator>(value: &Value<'_, A>) -> Result<Process, Wrong> {
    Ok(Process {
        pid: pid(value, "pid")?,
        born: count(value, "born")?,
    })
}

// The words of a command.
fn read_words<A: Allocator + Copy>(
    kept: &mut Kept<A>,
    value: &Value<'_, A>,
) -> Result<Part, Wrong> {
    let first = kept.words.len();
    let Some(items) = list(value, "argv")? else {
        return Err(Wrong::Field("argv"));
    };
    for item in items.as_slice() {
        let word = kept.keep_value(item, "argv")?;
        kept.words.push(word).map_err(|_| Wrong::Memory)?;
    }
    Ok(Part {
        first,
        past: kept.words.len(),
    })
}

// A call with its arguments.
pub(crate) fn read_call<A: Allocator + Copy>(
    kept: &mut Kept<A>,
    value: &Value<'_, A>,
) -> Result<Call, Wrong> {
    match word(value, "name")? {
        "fork" => Ok(Call::Fork),
        "exit" => Ok(Call::Exit),
        "wait" => Ok(Call::Wait),
        "pipe" => Ok(Call::Pipe),
        "exec" => Ok(Call::Exec(read_words(kept, value)?, truth(value, "found")?)),
        "read" => Ok(Call::Read(count(value, "fd")?, count(value, "size")?)),
        "write" => Ok(Call::Write(count(value, "fd")?, kept.keep_field(value, "data")?)),
        "open" => Ok(Call::Open(kept.keep_field(value, "file")?, mode_of(value)?)),
        "close" => Ok(Call::Close(count(value, "fd")?)),
        "dup" => Ok(Call::Dup(count(value, "fd")?)),
        _ => Err(Wrong::Field("name")),
    }
}

fn read_reply<A: Allocator + Copy>(
    kept: &mut Kept<A>,
    value: &Value<'_, A>,
) -> Result<Reply, Wrong> {
    match word(value, "type")? {
        "done" => Ok(Reply::Done),
        "refused" => Ok(Reply::Refused),
        "bytes" => Ok(Reply::Bytes(kept.keep_field(value, "data")?)),
        "fd" => Ok(Reply::Fd(count(value, "fd")?)),
        "ends" => Ok(Reply::Ends(count(value, "read")?, count(value, "write")?)),
        _ => Err(Wrong::Field("type")),
    }
}

// What a process sleeps on. A pipe was made before this event.
fn read_channel<A: Allocator>(value: &Value<'_, A>, n: usize) -> Result<Channel, Wrong> {
    match word(value, "on")? {
        "children" => Ok(Channel::Children),
        "pipe_bytes" => Ok(Channel::PipeBytes(within(value, "pipe", n)?)),
        "pipe_room" => Ok(Channel::PipeRoom(within(value, "pipe", n)?)),
        _ => Err(Wrong::Field("on")),
    }
}

// What the process is after the call.
pub(crate) fn read_state<A: Allocator + Copy>(
    kept: &mut Kept<A>,
    value: &Value<'_, A>,
    n: usize,
) -> Result<State, Wrong> {
    match word(value, "state")? {
        "runnable" => Ok(State::Runnable(read_reply(kept, field(value, "reply")?)?)),
        "asleep" => Ok(State::Asleep(read_channel(field(value, "sleep")?, n)?)),
        "zombie" => Ok(State::Zombie),
        _ => Err(Wrong::Field("state")),
    }
}

fn pipe_of<A: Allocator>(value: &Value<'_, A>, n: usize) -> Result<Object, Wrong> {
    let pipe = within(value, "pipe", n)?;
    match word(value, "end")? {
        "read" => Ok(Object::PipeRead(pipe)),
        "write" => Ok(Object::PipeWrite(pipe)),
        _ => Err(Wrong::Field("end")),
    }
}

fn object_of<A: Allocator + Copy>(
    kept: &mut Kept<A>,
    value: &Value<'_, A>,
    n: usize,
) -> Result<Object, Wrong> {
    match word(value, "type")? {
        "input" => Ok(Object::Input),
        "out" => Ok(Object::Out),
        "diag" => Ok(Object::Diag),
        "file" => Ok(Object::File(kept.keep_field(value, "name")?, mode_of(value)?)),
        "pipe" => pipe_of(value, n),
        _ => Err(Wrong::Field("type")),
    }
}

// What the descriptor of a call had open.
pub(crate) fn read_object<A: Allocator + Copy>(
    kept: &mut Kept<A>,
    value: &Value<'_, A>,
    n: usize,
) -> Result<Option<Object>, Wrong> {
    match value.get("object") {
        None => Ok(None),
        Some(object) => Ok(Some(object_of(kept, object, n)?)),
    }
}

fn pipe_state<A: Allocator>(value: &Value<'_, A>, n: usize) -> Result<PipeState, Wrong> {
    Ok(PipeState {
        event: n,
        pipe: within(value, "pipe", n)?,
        held: within(value, "held", PIPE_SIZE)?,
        readers: pids(value, "readers")?,
        writers: pids(value, "writers")?,
        closes_read: has_word(value, "closed", "read", "write")?,
        closes_write: has_word(value, "closed", "write", "read")?,
    })
}

// The pipes that an event changed.
pub(crate) fn read_pipes<A: Allocator + Copy>(
    kept: &mut Kept<A>,
    value: &Value<'_, A>,
    n: usize,
) -> Result<Part, Wrong> {
    let first = kept.pipes.len();
    let Some(items) = list(value, "pipes")? else {
        return Ok(Part { first, past: first });
    };
    for item in items.as_slice() {
        let state = pipe_state(item, n)?;
        kept.pipes.push(state).map_err(|_| Wrong::Memory)?;
    }
    Ok(Part {
        first,
        past: kept.pipes.len(),
    })
}

// The files of a line.
pub(crate) fn read_files<A: Allocator + Copy>(
    kept: &mut Kept<A>,
    value: &Value<'_, A>,
    n: usize,
) -> Result<Part, Wrong> {
    let first = kept.files.len();
    let Some(items) = list(value, "files")? else {
        return Ok(Part { first, past: first });
    };
    for item in items.as_slice() {
        let file = FileState {
            event: n,
            name: kept.keep_field(item, "name")?,
            length: count(item, "length")?,
            head: kept.keep_field(item, "head")?,
        };
        kept.files.push(file).map_err(|_| Wrong::Memory)?;
    }
    Ok(Part {
        first,
        past: kept.files.len(),
    })
}
