//! A call and a reply that are kept, and written over in place, so that no more bytes move than the call has.

ghost use Rattle.std.specs.Prelude.{◌≡◌, ◌↔◌, IsTrue, ◌≤◌, length, take};
ghost use Rattle.user_calls.specs.Limits.{block_size};
ghost use Rattle.user_calls.specs.Slots.{call_by, call_bytes, call_longer, reply_by, reply_bytes, reply_longer};

use crate::{Block, Call, Mode, Reply};
use std::marker::Model;

/// A call without its bytes.
#[derive(Clone, Copy, Debug, PartialEq, Eq)]
pub enum CallKind {
    /// `fork`.
    Fork,
    /// `exec` of a program, with whether it was found.
    Exec(bool),
    /// `exit`.
    Exit,
    /// `wait`.
    Wait,
    /// `pipe`.
    MakePipe,
    /// `read` from this descriptor of at most this many bytes.
    Read(usize, usize),
    /// `write` to this descriptor.
    Write(usize),
    /// `open` of a file.
    OpenFile(Mode),
    /// `close` of this descriptor.
    Close(usize),
    /// `dup` of this descriptor.
    Dup(usize),
}

/// A reply without its bytes.
#[derive(Clone, Copy, Debug, PartialEq, Eq)]
pub enum ReplyKind {
    /// No call was made yet.
    Start,
    /// The reply to a new child.
    Child,
    /// The call was carried out.
    Done,
    /// Bytes were read.
    Bytes,
    /// The descriptor that was opened.
    Fd(usize),
    /// The read end and the write end of a new pipe.
    Ends(usize, usize),
    /// The call was refused.
    Refused,
}

/// A call that is kept, and written over (own). Contracts see the call.
#[derive(Debug, Drop)]
pub struct CallSlot {
    kind: CallKind,
    block: Block,
}

impl Model for CallSlot {
    ghost use Rattle.user_calls.specs.declared.calls.Call.{Call};
    ghost use Rattle.user_calls.specs.Slots.{call_by};

    ghost Value = { Call };

    ghost view = { λ s. call_by s.kind s.block };
}

/// A reply that is kept, and written over (own). Contracts see the reply.
#[derive(Debug, Drop)]
pub struct ReplySlot {
    kind: ReplyKind,
    block: Block,
}

impl Model for ReplySlot {
    ghost use Rattle.user_calls.specs.declared.calls.Reply.{Reply};
    ghost use Rattle.user_calls.specs.Slots.{reply_by};

    ghost Value = { Reply };

    ghost view = { λ s. reply_by s.kind s.block };
}

impl CallSlot {
    ghost use Rattle.user_calls.specs.declared.calls.Call.TheVariants.{Fork, Exec, Exit, Wait, MakePipe, Read, Write, OpenFile, Close, Dup};

    /// `Exit` (own).
    pub fn new() -> Self
        ensures { result ≡ Exit }
    {
        CallSlot {
            kind: CallKind::Exit,
            block: Block::new(),
        }
    }

    /// What is called (own).
    pub fn kind(&self) -> CallKind
        ensures { self.now ≡ call_by result (call_bytes self.now) }
    {
        self.kind
    }

    /// The bytes that are written, or the name that is opened; none of another call (own).
    pub fn bytes(&self) -> &[u8]
        ensures bytes { result.now ≡ call_bytes self.now }
        ensures fits { length (call_bytes self.now) ≤ block_size }
    {
        match self.kind {
            CallKind::Write(_) => self.block.as_slice(),
            CallKind::OpenFile(_) => self.block.as_slice(),
            _ => &[],
        }
    }

    /// A copy, as a call (own).
    pub fn to_call(&self) -> Call
        ensures { result ≡ self.now }
    {
        match self.kind {
            CallKind::Fork => Call::Fork,
            CallKind::Exec(found) => Call::Exec(found),
            CallKind::Exit => Call::Exit,
            CallKind::Wait => Call::Wait,
            CallKind::MakePipe => Call::MakePipe,
            CallKind::Read(fd, most) => Call::Read(fd, most),
            CallKind::Write(fd) => Call::Write(fd, self.block.twin()),
            CallKind::OpenFile(mode) => Call::OpenFile(self.block.twin(), mode),
            CallKind::Close(fd) => Call::Close(fd),
            CallKind::Dup(fd) => Call::Dup(fd),
        }
    }

    /// Becomes this call (own).
    pub fn set(&mut self, call: &Call)
        ensures { self.new ≡ call.now }
    {
        match call {
            Call::Fork => self.fork(),
            Call::Exec(found) => self.exec(*found),
            Call::Exit => self.exit(),
            Call::Wait => self.wait(),
            Call::MakePipe => self.make_pipe(),
            Call::Read(fd, most) => self.read(*fd, *most),
            Call::Write(fd, bytes) => self.write(*fd, bytes.as_slice()),
            Call::OpenFile(name, mode) => self.open_file(name.as_slice(), *mode),
            Call::Close(fd) => self.close(*fd),
            Call::Dup(fd) => self.dup(*fd),
        }
    }

    /// Becomes `Fork` (own).
    pub fn fork(&mut self)
        ensures { self.new ≡ Fork }
    {
        self.kind = CallKind::Fork;
    }

    /// Becomes `Exec` (own).
    pub fn exec(&mut self, found: bool)
        ensures { self.new ≡ Exec found }
    {
        self.kind = CallKind::Exec(found);
    }

    /// Becomes `Exit` (own).
    pub fn exit(&mut self)
        ensures { self.new ≡ Exit }
    {
        self.kind = CallKind::Exit;
    }

    /// Becomes `Wait` (own).
    pub fn wait(&mut self)
        ensures { self.new ≡ Wait }
    {
        self.kind = CallKind::Wait;
    }

    /// Becomes `MakePipe` (own).
    pub fn make_pipe(&mut self)
        ensures { self.new ≡ MakePipe }
    {
        self.kind = CallKind::MakePipe;
    }

    /// Becomes `Read` (own).
    pub fn read(&mut self, fd: usize, most: usize)
        ensures { self.new ≡ Read fd most }
    {
        self.kind = CallKind::Read(fd, most);
    }

    /// Becomes `Write` of the first 1,024 of these bytes, or of all of them where there are fewer (own).
    pub fn write(&mut self, fd: usize, bytes: &[u8])
        ensures { self.new ≡ Write fd (take block_size bytes.now) }
    {
        self.kind = CallKind::Write(fd);
        self.block.refill(bytes);
    }

    /// Becomes `OpenFile` of the file whose name is the first 1,024 of these bytes, or all of them where there are
    /// fewer (own).
    pub fn open_file(&mut self, name: &[u8], mode: Mode)
        ensures { self.new ≡ OpenFile (take block_size name.now) mode }
    {
        self.kind = CallKind::OpenFile(mode);
        self.block.refill(name);
    }

    /// Adds these bytes behind those that are written, or to the name that is opened; what goes past 1,024 bytes is left
    /// out. Another call stays as it is (own).
    pub fn append(&mut self, more: &[u8])
        ensures { self.new ≡ call_longer self.old more.now }
    {
        self.block.append(more);
    }

    /// Becomes `Close` (own).
    pub fn close(&mut self, fd: usize)
        ensures { self.new ≡ Close fd }
    {
        self.kind = CallKind::Close(fd);
    }

    /// Becomes `Dup` (own).
    pub fn dup(&mut self, fd: usize)
        ensures { self.new ≡ Dup fd }
    {
        self.kind = CallKind::Dup(fd);
    }
}

impl ReplySlot {
    ghost use Rattle.user_calls.specs.declared.calls.Reply.TheVariants.{Start, Child, Done, Bytes, Fd, Ends, Refused};

    /// `Start` (own).
    pub fn new() -> Self
        ensures { result ≡ Start }
    {
        ReplySlot {
            kind: ReplyKind::Start,
            block: Block::new(),
        }
    }

    /// `Child` (own).
    pub fn child() -> Self
        ensures { result ≡ Child }
    {
        ReplySlot {
            kind: ReplyKind::Child,
            block: Block::new(),
        }
    }

    /// What is replied (own).
    pub fn kind(&self) -> ReplyKind
        ensures { self.now ≡ reply_by result (reply_bytes self.now) }
    {
        self.kind
    }

    /// The bytes that were read; none of another reply (own).
    pub fn bytes(&self) -> &[u8]
        ensures bytes { result.now ≡ reply_bytes self.now }
        ensures fits { length (reply_bytes self.now) ≤ block_size }
    {
        match self.kind {
            ReplyKind::Bytes => self.block.as_slice(),
            _ => &[],
        }
    }

    /// A copy, as a reply (own).
    pub fn to_reply(&self) -> Reply
        ensures { result ≡ self.now }
    {
        match self.kind {
            ReplyKind::Start => Reply::Start,
            ReplyKind::Child => Reply::Child,
            ReplyKind::Done => Reply::Done,
            ReplyKind::Bytes => Reply::Bytes(self.block.twin()),
            ReplyKind::Fd(fd) => Reply::Fd(fd),
            ReplyKind::Ends(reader, writer) => Reply::Ends(reader, writer),
            ReplyKind::Refused => Reply::Refused,
        }
    }

    /// Becomes this reply (own).
    pub fn set(&mut self, reply: &Reply)
        ensures { self.new ≡ reply.now }
    {
        match reply {
            Reply::Start => self.kind = ReplyKind::Start,
            Reply::Child => self.kind = ReplyKind::Child,
            Reply::Done => self.done(),
            Reply::Bytes(bytes) => self.read(bytes.as_slice()),
            Reply::Fd(fd) => self.fd(*fd),
            Reply::Ends(reader, writer) => self.ends(*reader, *writer),
            Reply::Refused => self.refused(),
        }
    }

    /// Whether the two are equal (own).
    pub fn same(&self, other: &Reply) -> bool
        ensures { IsTrue result ↔ (self.now ≡ other.now) }
    {
        match (self.kind, other) {
            (ReplyKind::Start, Reply::Start) => true,
            (ReplyKind::Child, Reply::Child) => true,
            (ReplyKind::Done, Reply::Done) => true,
            (ReplyKind::Bytes, Reply::Bytes(bytes)) => self.block.same(bytes),
            (ReplyKind::Fd(fd), Reply::Fd(other)) => fd == *other,
            (ReplyKind::Ends(reader, writer), Reply::Ends(other_reader, other_writer)) => {
                reader == *other_reader && writer == *other_writer
            }
            (ReplyKind::Refused, Reply::Refused) => true,
            _ => false,
        }
    }

    /// Becomes `Done` (own).
    pub fn done(&mut self)
        ensures { self.new ≡ Done }
    {
        self.kind = ReplyKind::Done;
    }

    /// Becomes `Refused` (own).
    pub fn refused(&mut self)
        ensures { self.new ≡ Refused }
    {
        self.kind = ReplyKind::Refused;
    }

    /// Becomes `Fd` (own).
    pub fn fd(&mut self, fd: usize)
        ensures { self.new ≡ Fd fd }
    {
        self.kind = ReplyKind::Fd(fd);
    }

    /// Becomes `Ends` (own).
    pub fn ends(&mut self, reader: usize, writer: usize)
        ensures { self.new ≡ Ends reader writer }
    {
        self.kind = ReplyKind::Ends(reader, writer);
    }

    /// Becomes `Bytes` of the first 1,024 of these bytes, or of all of them where there are fewer (own).
    pub fn read(&mut self, bytes: &[u8])
        ensures { self.new ≡ Bytes (take block_size bytes.now) }
    {
        self.kind = ReplyKind::Bytes;
        self.block.refill(bytes);
    }

    /// Adds these bytes behind those that were read; what goes past 1,024 bytes is left out. Another reply stays as it is
    /// (own).
    pub fn append(&mut self, more: &[u8])
        ensures { self.new ≡ reply_longer self.old more.now }
    {
        self.block.append(more);
    }
}
