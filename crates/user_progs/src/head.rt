//! `head` (own): the first lines of each input, read one byte at a time, so that what follows them stays unread.

ghost use Rattle.std.specs.Prelude.{◌≡◌};
ghost use Rattle.prog_parts.specs.Head.{has_wrong_option};
ghost use Rattle.user_progs.specs.Turn.{head_got, head_wrote, head_goes_on, begins_head, bytes_in, done_in, yields};
ghost use Rattle.user_progs.specs.View.{step_of, turn_of};

use crate::filter;
use crate::state::{Filter, Step, Turn, Work};
use prog_parts::head_request;
use sh_lexer::Bytes;
use std::alloc::Allocator;
use user_calls::{ReplyKind, ReplySlot};

// Begins with these arguments.
pub fn begins<'t, A: Allocator>(arguments: &'t [Bytes<A>]) -> Turn<'t, 't, A>
    ensures { turn_of result ≡ begins_head (has_wrong_option arguments.now) arguments.now }
{
    let Some((lines, names)) = head_request(arguments) else {
        return Turn::tells(b"usage: head [-N] [file ...]\n");
    };
    filter::begins(Filter::Heading(lines), names)
}

// Goes on where so many lines are left.
pub fn goes_on(lines: u32, left: u32) -> Step<'static>
    ensures { step_of result ≡ head_goes_on lines left }
{
    if left == 0 {
        Step::Finishes
    } else {
        Step::Reads(1, Work::HeadReads(lines, left))
    }
}

// A byte was read, or could not be.
pub fn got<'a>(lines: u32, left: u32, reply: &'a ReplySlot) -> Step<'a>
    ensures { step_of result ≡ head_got lines left (bytes_in reply.now) }
{
    match reply.kind() {
        ReplyKind::Bytes => got_bytes(lines, left, reply.bytes()),
        ReplyKind::Refused => Step::Fails(b"head: read error\n"),
        _ => Step::Quits,
    }
}

// These bytes were read; the first counts.
fn got_bytes<'a>(lines: u32, left: u32, bytes: &'a [u8]) -> Step<'a>
    ensures { step_of result ≡ head_got lines left (yields bytes.now) }
{
    let Some((byte, _)) = bytes.split_first() else {
        return Step::Finishes;
    };
    if left == 0 {
        return Step::Finishes;
    }
    let left = if *byte == b'\n' { left - 1 } else { left };
    Step::Writes(&bytes[..1], Work::HeadWrites(lines, left))
}

// It was written, or could not be.
pub fn wrote(lines: u32, left: u32, reply: &ReplySlot) -> Step<'static>
    ensures { step_of result ≡ head_wrote lines left (done_in reply.now) }
{
    match reply.kind() {
        ReplyKind::Done => goes_on(lines, left),
        ReplyKind::Refused => Step::Fails(b"head: write error\n"),
        _ => Step::Quits,
    }
}
