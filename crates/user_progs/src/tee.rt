//! `tee` (own): copies standard input to descriptor 1 and to each file.

ghost use Rattle.std.specs.Prelude.{◌≡◌, ◌≤◌, ◌↔◌, [], length, IsTrue};
ghost use Rattle.user_calls.specs.Limits.{block_size};
ghost use Rattle.user_progs.specs.Turn.{tee_opens_next, tee_opened, tee_got, tee_gives_next, tee_wrote, tee_turn, bytes_in, fd_in, done_in, yields};
ghost use Rattle.user_progs.specs.View.{turn_of, says_of, at_of, tee_of_code};

use crate::cat::CHUNK;
use crate::says::Says;
use crate::state::{At, Kept, Next, Plain, Turn, are_same};
use arrayvec::ArrayVec;
use sh_lexer::Bytes;
use std::alloc::Allocator;
use std::marker::Model;
use user_calls::{Mode, ReplyKind, ReplySlot};

// How many files are held at most: as many as a process has descriptors.
const FILES: usize = 16;

// The descriptors of the files, in order.
#[derive(Drop)]
pub struct Outputs {
    fds: ArrayVec<usize, FILES>,
}

impl Model for Outputs {
    ghost use Rattle.std.specs.Prelude.{List, ℕ, ◌≤◌, length};

    ghost Value = { List ℕ };

    ghost view = { λ o. o.fds.items };

    ghost invariant = { λ o. length o.fds.items ≤ 16 };
}

impl Outputs {
    ghost use Rattle.std.specs.Prelude.{◌≡◌, ◌<◌, ◌≤◌, ◌↔◌, ◌++◌, ◌∷◌, [], length, IsTrue};

    /// No descriptors.
    pub fn new() -> Self
        ensures { result ≡ [] }
    {
        Outputs {
            fds: ArrayVec::new(),
        }
    }

    /// The descriptors, in order.
    pub fn as_slice(&self) -> &[usize]
        ensures fds { result.now ≡ self.now }
        ensures few { length self.now ≤ 16 }
    {
        self.fds.as_slice()
    }

    /// An equal one.
    pub fn twin(&self) -> Self
        ensures { result ≡ self.now }
    {
        let mut fds = ArrayVec::new();
        let _ = fds.try_extend_from_slice(self.fds.as_slice());
        Outputs { fds }
    }

    // One more, behind the others.
    fn push(&mut self, fd: usize)
        requires { length self.old < 16 }
        ensures { self.new ≡ self.old ++ fd ∷ [] }
    {
        self.fds.push(fd);
    }

    /// Takes all descriptors away.
    pub fn clear(&mut self)
        ensures { self.new ≡ [] }
    {
        self.fds.clear();
    }
}

// How far it is. The descriptors of its files, and the bytes that are being written, are kept beside it.
#[derive(Drop)]
pub enum Tee<'t, A: Allocator> {
    // The file of this name is being opened; the files of these names come later.
    Opens(&'t [u8], &'t [Bytes<A>]),
    Reads,
    // Bytes are being written to descriptor 1.
    Writes,
    // Or to the file at this place.
    Gives(u8),
}

impl<'t, A: Allocator> Tee<'t, A> {
    /// An equal one.
    pub fn twin(&self) -> Self
        ensures { result ≡ self.now }
    {
        match self {
            Tee::Opens(name, later) => Tee::Opens(name, later),
            Tee::Reads => Tee::Reads,
            Tee::Writes => Tee::Writes,
            Tee::Gives(at) => Tee::Gives(*at),
        }
    }
}

// Whether the two are in the same state, with what is kept beside each.
pub fn is_same<A: Allocator>(
    tee: &Tee<'_, A>,
    kept: &Kept,
    other: &Tee<'_, A>,
    others: &Kept,
) -> bool
    ensures { IsTrue result ↔ (tee_of_code tee.now kept.now.fds kept.now.block ≡ tee_of_code other.now others.now.fds others.now.block) }
{
    if kept.fds.as_slice() != others.fds.as_slice() {
        return false;
    }
    match (tee, other) {
        (Tee::Opens(name, later), Tee::Opens(other_name, other_later)) => {
            *name == *other_name && are_same(later, other_later)
        }
        (Tee::Reads, Tee::Reads) => true,
        (Tee::Writes, Tee::Writes) => kept.block.same(&others.block),
        (Tee::Gives(at), Tee::Gives(other_at)) => at == other_at && kept.block.same(&others.block),
        _ => false,
    }
}

// Begins with these file words: opens the first of them, or reads.
pub fn begins<'t, A: Allocator>(names: &'t [Bytes<A>]) -> Turn<'t, 't, A>
    ensures { turn_of result ≡ tee_opens_next [] names.now }
{
    let next = match names.split_first() {
        Some((name, later)) => Next::Opens(name.as_slice(), later),
        None => Next::Reads,
    };
    Turn {
        call: opens_next(names),
        next,
    }
}

// The call that opens the first of these files, or reads.
fn opens_next<'t, A: Allocator>(names: &'t [Bytes<A>]) -> Says<'t>
    ensures { says_of result ≡ (tee_opens_next [] names.now).call }
{
    match names.split_first() {
        Some((name, _)) => Says::OpenFile(name.as_slice(), Mode::Fresh),
        None => Says::Read(0, CHUNK),
    }
}

// The call after the file of this name was opened, or could not be.
fn ask_opened<'t, A: Allocator>(
    fds: &Outputs,
    name: &'t [u8],
    later: &'t [Bytes<A>],
    reply: &ReplySlot,
) -> Says<'t>
    ensures { says_of result ≡ (tee_opened fds.now name.now later.now (fd_in reply.now)).call }
{
    match reply.kind() {
        ReplyKind::Fd(_) => {
            if fds.as_slice().len() < FILES {
                opens_next(later)
            } else {
                Says::CannotOpen(b"tee", name)
            }
        }
        ReplyKind::Refused => Says::CannotOpen(b"tee", name),
        _ => Says::Exit,
    }
}

// What is waited for then.
fn opened<'t, A: Allocator>(
    kept: &mut Kept,
    later: &'t [Bytes<A>],
    name: &[u8],
    reply: &ReplySlot,
) -> At<'t, A>
    ensures { at_of result kept.new.fds kept.new.block ≡ (tee_opened kept.old.fds name.now later.now (fd_in reply.now)).next }
{
    match reply.kind() {
        ReplyKind::Fd(fd) => {
            if kept.fds.as_slice().len() >= FILES {
                return At::Plain(Plain::Told);
            }
            kept.fds.push(fd);
            match later.split_first() {
                Some((name, later)) => At::Tees(Tee::Opens(name.as_slice(), later)),
                None => At::Tees(Tee::Reads),
            }
        }
        ReplyKind::Refused => At::Plain(Plain::Told),
        _ => At::Plain(Plain::Ended),
    }
}

// The call after some bytes were read, or could not be.
fn ask_got<'a>(fds: &Outputs, reply: &'a ReplySlot) -> Says<'a>
    ensures { says_of result ≡ (tee_got fds.now (bytes_in reply.now)).call }
{
    match reply.kind() {
        ReplyKind::Bytes => ask_bytes(fds, reply.bytes()),
        ReplyKind::Refused => Says::Write(2, b"tee: read error\n"),
        _ => Says::Exit,
    }
}

// The call after these bytes were read.
fn ask_bytes<'a>(fds: &Outputs, bytes: &'a [u8]) -> Says<'a>
    requires { length bytes.now ≤ block_size }
    ensures { says_of result ≡ (tee_got fds.now (yields bytes.now)).call }
{
    if bytes.is_empty() {
        return Says::Exit;
    }
    Says::Write(1, bytes)
}

// What is waited for then.
fn got<'t, A: Allocator>(kept: &mut Kept, reply: &ReplySlot) -> At<'t, A>
    ensures { at_of result kept.new.fds kept.new.block ≡ (tee_got kept.old.fds (bytes_in reply.now)).next }
{
    match reply.kind() {
        ReplyKind::Bytes => got_bytes(kept, reply.bytes()),
        ReplyKind::Refused => At::Plain(Plain::Told),
        _ => At::Plain(Plain::Ended),
    }
}

// These bytes were read.
fn got_bytes<'t, A: Allocator>(kept: &mut Kept, bytes: &[u8]) -> At<'t, A>
    requires { length bytes.now ≤ block_size }
    ensures { at_of result kept.new.fds kept.new.block ≡ (tee_got kept.old.fds (yields bytes.now)).next }
{
    if bytes.is_empty() {
        return At::Plain(Plain::Ended);
    }
    kept.block.refill(bytes);
    At::Tees(Tee::Writes)
}

// The call that gives the bytes to the file at this place, if there is one.
fn ask_gives<'a>(kept: &'a Kept, at: usize) -> Says<'a>
    ensures { says_of result ≡ (tee_gives_next kept.now.fds at kept.now.block).call }
{
    let bytes = kept.block.as_slice();
    let fds = kept.fds.as_slice();
    if at < fds.len() {
        return Says::Write(fds[at], bytes);
    }
    Says::Read(0, CHUNK)
}

// The call after the bytes were written, or could not be; next is the file at this place.
fn ask_wrote<'a>(kept: &'a Kept, at: usize, reply: &ReplySlot) -> Says<'a>
    ensures { says_of result ≡ (tee_wrote kept.now.fds at kept.now.block (done_in reply.now)).call }
{
    match reply.kind() {
        ReplyKind::Done => ask_gives(kept, at),
        ReplyKind::Refused => Says::Write(2, b"tee: write error\n"),
        _ => Says::Exit,
    }
}

// What is waited for then.
fn wrote<'t, A: Allocator>(kept: &Kept, at: usize, reply: &ReplySlot) -> At<'t, A>
    ensures { at_of result kept.now.fds kept.now.block ≡ (tee_wrote kept.now.fds at kept.now.block (done_in reply.now)).next }
{
    match reply.kind() {
        ReplyKind::Done => {
            if at < kept.fds.as_slice().len() {
                At::Tees(Tee::Gives(at as u8))
            } else {
                At::Tees(Tee::Reads)
            }
        }
        ReplyKind::Refused => At::Plain(Plain::Told),
        _ => At::Plain(Plain::Ended),
    }
}

// The call that follows from the reply.
pub fn ask<'a, 't, A: Allocator>(
    tee: &'a Tee<'t, A>,
    kept: &'a Kept,
    reply: &'a ReplySlot,
) -> Says<'a>
    ensures { says_of result ≡ (tee_turn (tee_of_code tee.now kept.now.fds kept.now.block) reply.now).call }
{
    match tee {
        Tee::Opens(name, later) => ask_opened(&kept.fds, name, later, reply),
        Tee::Reads => ask_got(&kept.fds, reply),
        Tee::Writes => ask_wrote(kept, 0, reply),
        Tee::Gives(at) => ask_wrote(kept, usize::from(*at) + 1, reply),
    }
}

// Goes on past the call that follows from the reply.
pub fn advance<'t, A: Allocator>(tee: &Tee<'t, A>, kept: &mut Kept, reply: &ReplySlot) -> At<'t, A>
    ensures { at_of result kept.new.fds kept.new.block ≡ (tee_turn (tee_of_code tee.now kept.old.fds kept.old.block) reply.now).next }
{
    match tee {
        Tee::Opens(name, later) => return opened(kept, later, name, reply),
        Tee::Reads => return got(kept, reply),
        Tee::Writes => return wrote(kept, 0, reply),
        Tee::Gives(at) => return wrote(kept, usize::from(*at) + 1, reply),
    }
}
