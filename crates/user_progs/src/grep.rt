//! `user/grep.c`: the lines of each input that match the pattern. Its buffer of 1,024 bytes holds at most 1,023.

ghost use Rattle.std.specs.Prelude.{◌≡◌, ◌≤◌, ◌++◌, ◌↔◌, IsTrue, length};
ghost use Rattle.user_calls.specs.Limits.{block_size};
ghost use Rattle.user_progs.specs.Turn.{turn, turn_by, work_step, name_of, block, grep_goes_on, grep_keeps, begins_grep};
ghost use Rattle.user_progs.specs.State.{searching};
ghost use Rattle.user_progs.specs.View.{turn_of, found_of, FoundFits, heard_of, at_of, grep_of, search_of, source_of_code, says_of};

use crate::filter;
use crate::says::Says;
use crate::state::{At, Filter, Grep, Kept, Plain, Search, Turn, goes_on};
use grep_match::is_match;
use prog_parts::{BUFFER, is_whole, split_line};
use sh_lexer::Bytes;
use std::alloc::Allocator;
use user_calls::{Block, CallSlot, ReplyKind, ReplySlot};

// What a reply leads to.
#[derive(Drop)]
pub enum Heard<'a> {
    // These bytes come behind those that are kept, and a line is looked for.
    Looks(&'a [u8]),
    // The input ends.
    Finishes,
    // The program ends.
    Quits,
}

// What is found in the buffer.
#[derive(Drop)]
pub enum Found<'a> {
    // There is no line to test, and no room for more.
    Full,
    // There is no line to test in these bytes, which are kept.
    Keeps(&'a [u8]),
    // This line matches; the bytes behind it are kept.
    Matches(&'a [u8], &'a [u8]),
}

// There is no line to test in these bytes.
fn keeps<'a>(pattern: &[u8], kept: &'a [u8]) -> Found<'a>
    requires { length kept.now ≤ block_size }
    ensures found { found_of pattern.now result ≡ grep_keeps pattern.now kept.now }
    ensures fits { FoundFits result }
{
    if kept.len() >= BUFFER {
        return Found::Full;
    }
    Found::Keeps(kept)
}

// The first line of these bytes that is tested and matches, or what is kept of them.
fn find<'a>(pattern: &[u8], buffer: &'a [u8]) -> Found<'a>
    requires { length buffer.now ≤ block_size }
    ensures found { found_of pattern.now result ≡ grep_goes_on pattern.now buffer.now }
    ensures fits { FoundFits result }
{
    let mut rest = buffer;
    while let Some((line, after)) = split_line(rest) {
        if !is_whole(line) {
            return keeps(pattern, rest);
        }
        if is_match(pattern, line) {
            return Found::Matches(line, after);
        }
        rest = after;
    }
    keeps(pattern, rest)
}

// Some bytes were read, or could not be; or a line was written.
fn hears<'a, 't, A: Allocator>(grep: &Grep<'t, A>, block: &Block, reply: &'a ReplySlot) -> Heard<'a>
    ensures { heard_of grep.now.pattern.now block.now result ≡ work_step (search_of grep.now.search grep.now.pattern.now block.now) (name_of (source_of_code grep.now.source)) reply.now }
{
    let _fits = block.as_slice();
    match grep.search {
        Search::Writes => Heard::Looks(b""),
        Search::Reads => match reply.kind() {
            ReplyKind::Bytes => {
                let bytes = reply.bytes();
                if bytes.is_empty() {
                    Heard::Finishes
                } else {
                    Heard::Looks(bytes)
                }
            }
            ReplyKind::Refused => Heard::Finishes,
            _ => Heard::Quits,
        },
    }
}

// The bytes that are kept, and behind them these; what goes past 1,024 bytes is left out.
fn joined(kept: &Block, more: &[u8]) -> Block
    ensures { result ≡ block (kept.now ++ more.now) }
{
    let mut buffer = kept.twin();
    buffer.append(more);
    buffer
}

// Writes the call that follows from the reply.
pub fn ask<'t, A: Allocator>(
    grep: &Grep<'t, A>,
    block: &Block,
    reply: &ReplySlot,
    call: &mut CallSlot,
)
    ensures { call.new ≡ (turn (grep_of grep.now block.now) reply.now).call }
{
    match hears(grep, block, reply) {
        Heard::Looks(more) => ask_looking(grep, block, more, call),
        Heard::Finishes => {
            filter::after_source(Filter::Searching(grep.pattern), &grep.source)
                .call
                .put(call)
        }
        Heard::Quits => call.exit(),
    }
}

// Writes the call that follows from what is found with these bytes more.
fn ask_looking<'t, A: Allocator>(grep: &Grep<'t, A>, held: &Block, more: &[u8], call: &mut CallSlot)
    ensures { call.new ≡ (turn_by (grep_goes_on grep.now.pattern.now (block (held.now ++ more.now))) (searching grep.now.pattern.now) (source_of_code grep.now.source)).call }
{
    let buffer = joined(held, more);
    says(&find(grep.pattern, buffer.as_slice()), grep).put(call);
}

// The call that follows from what was found.
fn says<'a, 't, A: Allocator>(found: &Found<'a>, grep: &Grep<'t, A>) -> Says<'a>
    requires { FoundFits found.now }
    ensures { says_of result ≡ (turn_by (found_of grep.now.pattern.now found.now) (searching grep.now.pattern.now) (source_of_code grep.now.source)).call }
{
    match found {
        Found::Full => filter::after_source(Filter::Searching(grep.pattern), &grep.source).call,
        Found::Keeps(kept) => Says::Read(grep.source.fd(), BUFFER - kept.len()),
        Found::Matches(line, _) => Says::Line(line),
    }
}

// Goes on past the call that follows from the reply.
pub fn advance<'t, A: Allocator>(
    grep: &Grep<'t, A>,
    kept: &mut Kept,
    reply: &ReplySlot,
) -> At<'t, A>
    ensures { at_of result kept.new.fds kept.new.block ≡ (turn (grep_of grep.now kept.old.block) reply.now).next }
{
    match hears(grep, &kept.block, reply) {
        Heard::Looks(more) => advance_looking(grep, kept, more),
        Heard::Finishes => goes_on(
            filter::after_source(Filter::Searching(grep.pattern), &grep.source).next,
            kept,
        ),
        Heard::Quits => At::Plain(Plain::Ended),
    }
}

// Goes on past the call that follows from what is found with these bytes more.
fn advance_looking<'t, A: Allocator>(grep: &Grep<'t, A>, kept: &mut Kept, more: &[u8]) -> At<'t, A>
    ensures { at_of result kept.new.fds kept.new.block ≡ (turn_by (grep_goes_on grep.now.pattern.now (block (kept.old.block ++ more.now))) (searching grep.now.pattern.now) (source_of_code grep.now.source)).next }
{
    let buffer = joined(&kept.block, more);
    keep(&find(grep.pattern, buffer.as_slice()), grep, kept)
}

// Keeps what was found to be kept.
fn keep<'t, A: Allocator>(found: &Found<'_>, grep: &Grep<'t, A>, kept: &mut Kept) -> At<'t, A>
    requires { FoundFits found.now }
    ensures { at_of result kept.new.fds kept.new.block ≡ (turn_by (found_of grep.now.pattern.now found.now) (searching grep.now.pattern.now) (source_of_code grep.now.source)).next }
{
    match found {
        Found::Full => goes_on(
            filter::after_source(Filter::Searching(grep.pattern), &grep.source).next,
            kept,
        ),
        Found::Keeps(bytes) => {
            kept.block.refill(bytes);
            At::Greps(grep.at(Search::Reads))
        }
        Found::Matches(_, rest) => {
            kept.block.refill(rest);
            At::Greps(grep.at(Search::Writes))
        }
    }
}

// Begins with these arguments.
pub fn begins<'t, A: Allocator>(arguments: &'t [Bytes<A>]) -> Turn<'t, 't, A>
    ensures { turn_of result ≡ begins_grep arguments.now }
{
    let Some((pattern, names)) = arguments.split_first() else {
        return Turn::tells(b"usage: grep pattern [file ...]\n");
    };
    filter::begins(Filter::Searching(pattern.as_slice()), names)
}

// Whether the two are in the same state, with the bytes that each keeps.
pub fn is_same<'t, A: Allocator>(
    grep: &Grep<'t, A>,
    block: &Block,
    other: &Grep<'t, A>,
    others: &Block,
) -> bool
    ensures { IsTrue result ↔ (grep_of grep.now block.now ≡ grep_of other.now others.now) }
{
    if !grep.search.same(other.search) || *grep.pattern != *other.pattern {
        return false;
    }
    if !block.same(others) {
        return false;
    }
    grep.source.same(&other.source)
}
