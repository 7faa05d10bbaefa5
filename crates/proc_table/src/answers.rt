//! How a call ends that reads no bytes.

ghost use Rattle.std.specs.Prelude.{◌≡◌};
ghost use Rattle.proc_table.specs.Answers.{reply_of};

use user_calls::{Reply, ReplyKind, ReplySlot};

/// The reply to a call that reads no bytes (own).
#[derive(Clone, Copy, Debug, PartialEq, Eq)]
pub enum Answer {
    /// The call was carried out.
    Done,
    /// The descriptor that was opened.
    Fd(usize),
    /// The two descriptors of a new pipe: its read end and its write end.
    Ends(usize, usize),
    /// The call was refused.
    Refused,
}

// Writes the reply over the one before.
pub(crate) fn write_reply(reply: &mut ReplySlot, answer: Answer)
    ensures { reply.new ≡ reply_of answer }
{
    match answer {
        Answer::Done => reply.done(),
        Answer::Fd(fd) => reply.fd(fd),
        Answer::Ends(reader, writer) => reply.ends(reader, writer),
        Answer::Refused => reply.refused(),
    }
}

// The reply becomes equal to the other.
pub(crate) fn copy_reply(reply: &mut ReplySlot, other: &ReplySlot)
    ensures { reply.new ≡ other.now }
{
    match other.kind() {
        ReplyKind::Start => reply.set(&Reply::Start),
        ReplyKind::Child => reply.set(&Reply::Child),
        ReplyKind::Done => reply.done(),
        ReplyKind::Bytes => reply.read(other.bytes()),
        ReplyKind::Fd(fd) => reply.fd(fd),
        ReplyKind::Ends(reader, writer) => reply.ends(reader, writer),
        ReplyKind::Refused => reply.refused(),
    }
}
