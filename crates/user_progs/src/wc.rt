//! `user/wc.c`: how many LFs, words and bytes each input has.

ghost use Rattle.std.specs.Prelude.{◌≡◌};
ghost use Rattle.user_progs.specs.Turn.{wc_got, wc_counts, bytes_in};
ghost use Rattle.user_progs.specs.View.{step_of, work_of_code};

use crate::cat::CHUNK;
use crate::state::{Counts, Step, Work};
use prog_parts::count;
use user_calls::{ReplyKind, ReplySlot};

// Nothing was counted.
pub const NOTHING: Counts = Counts {
    lines: 0,
    words: 0,
    bytes: 0,
    is_inside: false,
};

// The counts with those of these bytes.
fn counted(counts: &Counts, bytes: &[u8]) -> Work
    ensures { work_of_code result ≡ wc_counts counts.now.lines counts.now.words counts.now.bytes counts.now.is_inside bytes.now }
{
    let more = count(bytes, counts.is_inside);
    Work::WcReads(Counts {
        lines: counts.lines.saturating_add(u128::from(more.lines)),
        words: counts.words.saturating_add(u128::from(more.words)),
        bytes: counts.bytes.saturating_add(bytes.len() as u128),
        is_inside: more.is_inside,
    })
}

// Some bytes were read, or could not be.
pub fn got<'a>(counts: &Counts, name: &'a [u8], reply: &ReplySlot) -> Step<'a>
    ensures { step_of result ≡ wc_got counts.now.lines counts.now.words counts.now.bytes counts.now.is_inside name.now (bytes_in reply.now) }
{
    match reply.kind() {
        ReplyKind::Bytes => {
            let bytes = reply.bytes();
            if bytes.is_empty() {
                Step::Tells(*counts, name)
            } else {
                Step::Reads(CHUNK, counted(counts, bytes))
            }
        }
        ReplyKind::Refused => Step::Fails(b"wc: read error\n"),
        _ => Step::Quits,
    }
}
