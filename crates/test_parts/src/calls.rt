//! What programs print where a read is refused, as no row shows it: what a script opens to read can be read (`user/cat.c`, `user/wc.c`).

use sh_lexer::Bytes;
use sh_tree::{Cmd, parse};
use std::alloc::Global;
use std::test::Fail;
use user_calls::{Block, Call, Machine, Reply};
use user_progs::lookup;

// A reply by its letter.
fn reply_of(letter: u8) -> Reply {
    match letter {
        b's' => Reply::Start,
        b'd' => Reply::Done,
        b'f' => Reply::Fd(3),
        b'b' => Reply::Bytes(Block::from_slice(b"a")),
        _ => Reply::Refused,
    }
}

// The replies that a command gets, the command, and what it prints then.
const READ_ERRORS: &str = "sr cat : cat: read error
sfr cat f : cat: read error
sbdr cat : cat: read error
sr wc : wc: read error
sr head : head: read error
sr tee : tee: read error";

// Whether the call prints this line.
fn is_printed(call: &Call, text: &str) -> bool {
    match call {
        Call::Write(2, bytes) => bytes.as_slice().strip_suffix(b"\n") == Some(text.as_bytes()),
        _ => false,
    }
}

// Whether the last call of the program of these words, which gets these replies, prints this line.
fn prints(words: &[Bytes<Global>], replies: &str, text: &str) -> bool {
    let Some(mut program) = lookup(words) else {
        return false;
    };
    let mut call = Call::Exit;
    for letter in replies.as_bytes() {
        call = program.run(&reply_of(*letter));
    }
    is_printed(&call, text)
}

fn line_holds(alloc: Global, line: &str) -> bool {
    let (replies, rest) = line.split_once(' ').unwrap_or((line, ""));
    let (command, text) = rest.split_once(" : ").unwrap_or((rest, ""));
    match parse(alloc, command.as_bytes()) {
        Ok(Cmd::Exec(words)) => prints(words.as_slice(), replies, text),
        _ => false,
    }
}

#[test]
fn refused_reads_are_reported(rt: HostRuntime) -> Result<(), Fail> {
    for line in READ_ERRORS.lines() {
        if !line_holds(rt.alloc(), line) {
            return Err(Fail::from(line));
        }
    }
    Ok(())
}
