//! System calls and the replies to them.

ghost use Rattle.std.specs.Prelude.{◌≡◌, ◌↔◌, IsTrue};

use crate::Block;

/// How a file is opened (xv6's `O_RDONLY`, `O_WRONLY | O_CREATE | O_TRUNC` and `O_WRONLY | O_CREATE`; the last is own:
/// the profile in which `>>` appends opens its file by it).
#[derive(Clone, Copy, Debug, PartialEq, Eq)]
pub enum Mode {
    /// For reading.
    Input,
    /// For writing, from an empty file on.
    Fresh,
    /// For writing, over the bytes that are there.
    Over,
    /// For writing, where each write goes to the end of the file at that time.
    Append,
}

/// A system call (xv6's `user/user.h`). Descriptors are numbers from 0.
#[derive(Debug, Drop)]
pub enum Call {
    /// `fork`: a child goes on from the same state, with the reply `Child`.
    Fork,
    /// `exec` of a program, with whether it was found (own: in xv6 the call takes the path and the words).
    Exec(bool),
    /// `exit`. The parent gets no exit status (own).
    Exit,
    /// `wait` for a child that exits.
    Wait,
    /// `pipe`.
    MakePipe,
    /// `read` from this descriptor of at most this many bytes.
    Read(usize, usize),
    /// `write` of all these bytes to this descriptor.
    Write(usize, Block),
    /// `open` of the file of this name.
    OpenFile(Block, Mode),
    /// `close` of this descriptor.
    Close(usize),
    /// `dup` of this descriptor.
    Dup(usize),
}

/// The reply to a call (xv6's return value in `a0`, and the bytes in the caller's buffer).
#[derive(Debug, Drop)]
pub enum Reply {
    /// No call was made yet: the first reply to init and to the top shell.
    Start,
    /// The reply to a new child, where its parent gets `Done`.
    Child,
    /// The call was carried out.
    Done,
    /// The bytes that were read; none at the end of the input.
    Bytes(Block),
    /// The descriptor that was opened.
    Fd(usize),
    /// The two descriptors of a new pipe: its read end and its write end.
    Ends(usize, usize),
    /// The call was refused (xv6's -1).
    Refused,
}

impl Reply {
    /// A copy (own).
    pub fn twin(&self) -> Self
        ensures { result ≡ self.now }
    {
        match self {
            Reply::Start => Reply::Start,
            Reply::Child => Reply::Child,
            Reply::Done => Reply::Done,
            Reply::Bytes(block) => Reply::Bytes(block.twin()),
            Reply::Fd(fd) => Reply::Fd(*fd),
            Reply::Ends(reader, writer) => Reply::Ends(*reader, *writer),
            Reply::Refused => Reply::Refused,
        }
    }

    /// Whether the two are equal (own).
    pub fn same(&self, other: &Self) -> bool
        ensures { IsTrue result ↔ (self.now ≡ other.now) }
    {
        match (self, other) {
            (Reply::Start, Reply::Start) => true,
            (Reply::Child, Reply::Child) => true,
            (Reply::Done, Reply::Done) => true,
            (Reply::Bytes(block), Reply::Bytes(other)) => block.same(other),
            (Reply::Fd(fd), Reply::Fd(other)) => fd == other,
            (Reply::Ends(reader, writer), Reply::Ends(other_reader, other_writer)) => {
                reader == other_reader && writer == other_writer
            }
            (Reply::Refused, Reply::Refused) => true,
            _ => false,
        }
    }
}
