//! `user/cat.c`: the inputs, one after the other.

ghost use Rattle.std.specs.Prelude.{◌≡◌, ◌≤◌, length};
ghost use Rattle.user_calls.specs.Limits.{block_size};
ghost use Rattle.user_progs.specs.Turn.{cat_got, cat_wrote, bytes_in, done_in, yields};
ghost use Rattle.user_progs.specs.View.{step_of};

use crate::state::{Step, Work};
use user_calls::{ReplyKind, ReplySlot};

// How many bytes are read at once.
pub const CHUNK: usize = 512;

// Some bytes were read, or could not be.
pub fn got<'a>(reply: &'a ReplySlot) -> Step<'a>
    ensures { step_of result ≡ cat_got (bytes_in reply.now) }
{
    match reply.kind() {
        ReplyKind::Bytes => got_bytes(reply.bytes()),
        ReplyKind::Refused => Step::Fails(b"cat: read error\n"),
        _ => Step::Quits,
    }
}

// These bytes were read.
fn got_bytes<'a>(bytes: &'a [u8]) -> Step<'a>
    requires { length bytes.now ≤ block_size }
    ensures { step_of result ≡ cat_got (yields bytes.now) }
{
    if bytes.is_empty() {
        return Step::Finishes;
    }
    Step::Writes(bytes, Work::CatWrites)
}

// They were written, or could not be.
pub fn wrote(reply: &ReplySlot) -> Step<'static>
    ensures { step_of result ≡ cat_wrote (done_in reply.now) }
{
    match reply.kind() {
        ReplyKind::Done => Step::Reads(CHUNK, Work::CatReads),
        ReplyKind::Refused => Step::Fails(b"cat: write error\n"),
        _ => Step::Quits,
    }
}
