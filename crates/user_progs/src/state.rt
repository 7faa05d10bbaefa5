//! The states of a program from one call to the next.

ghost use Rattle.std.specs.Prelude.{◌≡◌, ◌↔◌, IsTrue};
ghost use Rattle.user_progs.specs.View.{at_of, next_state};

use crate::says::Says;
use crate::tee::{Outputs, Tee};
use prog_parts::Program;
use sh_lexer::Bytes;
use std::alloc::Allocator;
use user_calls::Block;

// What is done with each input.
#[derive(Clone, Copy)]
pub enum Filter<'t> {
    // All of it is written.
    Copying,
    // So many lines of it are written.
    Heading(u32),
    // A line of its counts is written.
    Counting,
    // Its lines that match the pattern are written.
    Searching(&'t [u8]),
}

// An input.
#[derive(Drop)]
pub enum Source<'t, A: Allocator> {
    Standard,
    // The file of this name, open at this descriptor; the files of these names come later.
    File(usize, &'t [u8], &'t [Bytes<A>]),
}

// How far the work on an input is, but for grep's.
#[derive(Clone, Copy)]
pub enum Work {
    CatReads,
    CatWrites,
    // Of each input so many lines are taken, of which so many are left.
    HeadReads(u32, u32),
    HeadWrites(u32, u32),
    // So much was counted.
    WcReads(Counts),
    WcWrites,
}

// How far grep's work on an input is. It keeps bytes in its block.
#[derive(Clone, Copy)]
pub enum Search {
    Reads,
    // A line is being written; the bytes behind it are kept.
    Writes,
}

// The LFs, words and bytes of an input so far; each count stays at its greatest value.
#[derive(Clone, Copy, PartialEq, Eq)]
pub struct Counts {
    pub lines: u128,
    pub words: u128,
    pub bytes: u128,
    // Whether the last byte is of a word.
    pub is_inside: bool,
}

// Where a program is that keeps no bytes. Each state waits for the reply to a call.
#[derive(Drop)]
pub enum Plain<'t, A: Allocator> {
    // It was found, with these arguments.
    Begins(Program, &'t [Bytes<A>]),
    // echo wrote an argument, or a space; these are left.
    EchoWord(&'t [Bytes<A>]),
    EchoSpace(&'t [Bytes<A>]),
    // The file of this name is being opened; the files of these names come later.
    Opens(Filter<'t>, &'t [u8], &'t [Bytes<A>]),
    Works(Work, Source<'t, A>),
    // A file is being closed; the files of these names come later.
    Closes(Filter<'t>, &'t [Bytes<A>]),
    // The last write was made.
    Told,
    // `Exit` was called.
    Ended,
}

// grep with this pattern, on this input.
#[derive(Drop)]
pub struct Grep<'t, A: Allocator> {
    pub pattern: &'t [u8],
    pub source: Source<'t, A>,
    pub search: Search,
}

// Where a program is. It says nothing of what is kept beside it.
#[derive(Drop)]
pub enum At<'t, A: Allocator> {
    Plain(Plain<'t, A>),
    Greps(Grep<'t, A>),
    Tees(Tee<'t, A>),
}

// What a program keeps: tee its files, and grep or tee bytes. It is written in place, and means nothing where the program
// doesn't need it.
#[derive(Drop)]
pub struct Kept {
    pub fds: Outputs,
    pub block: Block,
}

// What a program that keeps no bytes goes on as.
#[derive(Drop)]
pub enum Next<'t, A: Allocator> {
    Stays(Plain<'t, A>),
    // grep, which reads this input and keeps nothing yet.
    Searches(&'t [u8], Source<'t, A>),
    // tee, which opens its first file, or reads and has no file.
    Opens(&'t [u8], &'t [Bytes<A>]),
    Reads,
}

// A call, and what waits for the reply to it.
#[derive(Drop)]
pub struct Turn<'a, 't, A: Allocator> {
    pub call: Says<'a>,
    pub next: Next<'t, A>,
}

// What the work on an input does.
#[derive(Drop)]
pub enum Step<'a> {
    // It reads at most so many bytes.
    Reads(usize, Work),
    // It writes these bytes to descriptor 1.
    Writes(&'a [u8], Work),
    // It writes the line of these counts and this name.
    Tells(Counts, &'a [u8]),
    // It is done.
    Finishes,
    // It ends the program, with this message or without one.
    Fails(&'static [u8]),
    Quits,
}

impl<'a, 't, A: Allocator> Turn<'a, 't, A> {
    ghost use Rattle.user_progs.specs.Turn.{exits, tells};
    ghost use Rattle.user_progs.specs.View.{turn_of, says_of, plain_of};

    /// The program that makes this call, and stands there.
    pub fn stays(call: Says<'a>, at: Plain<'t, A>) -> Self
        ensures { turn_of result ≡ record { call = says_of call.entry; next = plain_of at.entry } }
    {
        Turn {
            call,
            next: Next::Stays(at),
        }
    }

    /// The program that exits.
    pub fn exits() -> Self
        ensures { turn_of result ≡ exits }
    {
        Turn {
            call: Says::Exit,
            next: Next::Stays(Plain::Ended),
        }
    }

    // Writes a message to descriptor 2, and exits then.
    pub fn tells(message: &'a [u8]) -> Self
        ensures { turn_of result ≡ tells message.now }
    {
        Turn {
            call: Says::Write(2, message),
            next: Next::Stays(Plain::Told),
        }
    }
}

impl Kept {
    ghost use Rattle.std.specs.Prelude.{◌≡◌};

    /// A program before its first call.
    pub fn new() -> Self {
        Kept {
            fds: Outputs::new(),
            block: Block::new(),
        }
    }

    /// An equal one.
    pub fn twin(&self) -> Self
        ensures fds { result.fds ≡ self.now.fds }
        ensures bytes { result.block ≡ self.now.block }
    {
        Kept {
            fds: self.fds.twin(),
            block: self.block.twin(),
        }
    }
}

impl<'t, A: Allocator> Source<'t, A> {
    ghost use Rattle.user_progs.specs.Turn.{fd_of, name_of};
    ghost use Rattle.user_progs.specs.View.{source_of_code};

    // The descriptor that it is read from.
    pub fn fd(&self) -> usize
        ensures { result ≡ fd_of (source_of_code self.now) }
    {
        match self {
            Source::Standard => 0,
            Source::File(fd, _, _) => *fd,
        }
    }

    // Its name; standard input has none.
    pub fn name(&self) -> &[u8]
        ensures { result.now ≡ name_of (source_of_code self.now) }
    {
        match self {
            Source::Standard => b"",
            Source::File(_, name, _) => name,
        }
    }

    /// An equal one.
    pub fn twin(&self) -> Self
        ensures { source_of_code result ≡ source_of_code self.now }
    {
        match self {
            Source::Standard => Source::Standard,
            Source::File(fd, name, later) => Source::File(*fd, name, later),
        }
    }

    /// Whether the two are equal.
    pub fn same(&self, other: &Self) -> bool
        ensures { IsTrue result ↔ (source_of_code self.now ≡ source_of_code other.now) }
    {
        match (self, other) {
            (Source::Standard, Source::Standard) => true,
            (Source::File(fd, name, later), Source::File(other_fd, other_name, other_later)) => {
                fd == other_fd && *name == *other_name && are_same(later, other_later)
            }
            _ => false,
        }
    }
}

// Whether these are the same words.
pub fn are_same<A: Allocator>(words: &[Bytes<A>], others: &[Bytes<A>]) -> bool
    ensures { IsTrue result ↔ (words.now ≡ others.now) }
{
    if words.len() != others.len() {
        return false;
    }
    for i in 0..words.len() {
        if words[i].as_slice() != others[i].as_slice() {
            return false;
        }
    }
    true
}

impl<'t> Filter<'t> {
    ghost use Rattle.user_progs.specs.View.{filter_of_code};

    /// Whether the two are equal.
    pub fn same(&self, other: &Self) -> bool
        ensures { IsTrue result ↔ (filter_of_code self.now ≡ filter_of_code other.now) }
    {
        match (self, other) {
            (Filter::Copying, Filter::Copying) => true,
            (Filter::Heading(lines), Filter::Heading(other_lines)) => lines == other_lines,
            (Filter::Counting, Filter::Counting) => true,
            (Filter::Searching(pattern), Filter::Searching(other_pattern)) => *pattern
                == *other_pattern,
            _ => false,
        }
    }
}

impl Work {
    ghost use Rattle.user_progs.specs.Turn.{filter_of};
    ghost use Rattle.user_progs.specs.View.{work_of_code, filter_of_code};

    // What it is a part of.
    pub fn filter(&self) -> Filter<'static>
        ensures { filter_of_code result ≡ filter_of (work_of_code self.now) }
    {
        match self {
            Work::CatReads => Filter::Copying,
            Work::CatWrites => Filter::Copying,
            Work::HeadReads(lines, _) => Filter::Heading(*lines),
            Work::HeadWrites(lines, _) => Filter::Heading(*lines),
            Work::WcReads(_) => Filter::Counting,
            Work::WcWrites => Filter::Counting,
        }
    }

    /// Whether the two are equal.
    pub fn same(&self, other: &Self) -> bool
        ensures { IsTrue result ↔ (work_of_code self.now ≡ work_of_code other.now) }
    {
        match (self, other) {
            (Work::CatReads, Work::CatReads) => true,
            (Work::CatWrites, Work::CatWrites) => true,
            (Work::HeadReads(lines, left), Work::HeadReads(other_lines, other_left)) => {
                lines == other_lines && left == other_left
            }
            (Work::HeadWrites(lines, left), Work::HeadWrites(other_lines, other_left)) => {
                lines == other_lines && left == other_left
            }
            (Work::WcReads(counts), Work::WcReads(other_counts)) => counts == other_counts,
            (Work::WcWrites, Work::WcWrites) => true,
            _ => false,
        }
    }
}

impl Search {
    ghost use Rattle.std.specs.Prelude.{◌≡◌, ◌↔◌, IsTrue};

    /// Whether the two are equal.
    pub fn same(self, other: Self) -> bool
        ensures { IsTrue result ↔ (self ≡ other) }
    {
        match (self, other) {
            (Search::Reads, Search::Reads) => true,
            (Search::Writes, Search::Writes) => true,
            _ => false,
        }
    }
}

impl<'t, A: Allocator> Grep<'t, A> {
    ghost use Rattle.std.specs.Prelude.{◌≡◌, ◌↔◌, IsTrue};
    ghost use Rattle.user_progs.specs.View.{source_of_code};

    // The same search, elsewhere in its work on the input.
    pub fn at(&self, search: Search) -> Self
        ensures pattern { result.pattern.now ≡ self.now.pattern.now }
        ensures source { source_of_code result.source ≡ source_of_code self.now.source }
        ensures search { result.search ≡ search }
    {
        Grep {
            pattern: self.pattern,
            source: self.source.twin(),
            search,
        }
    }
}

impl<'t, A: Allocator> Plain<'t, A> {
    ghost use Rattle.user_progs.specs.View.{plain_of};

    /// An equal one.
    pub fn twin(&self) -> Self
        ensures { plain_of result ≡ plain_of self.now }
    {
        match self {
            Plain::Begins(program, arguments) => Plain::Begins(*program, arguments),
            Plain::EchoWord(later) => Plain::EchoWord(later),
            Plain::EchoSpace(later) => Plain::EchoSpace(later),
            Plain::Opens(filter, name, later) => Plain::Opens(*filter, name, later),
            Plain::Works(work, source) => Plain::Works(*work, source.twin()),
            Plain::Closes(filter, later) => Plain::Closes(*filter, later),
            Plain::Told => Plain::Told,
            Plain::Ended => Plain::Ended,
        }
    }

    /// Whether the two are equal.
    pub fn same(&self, other: &Self) -> bool
        ensures { IsTrue result ↔ (plain_of self.now ≡ plain_of other.now) }
    {
        match (self, other) {
            (Plain::Begins(program, words), Plain::Begins(other_program, other_words)) => {
                program == other_program && are_same(words, other_words)
            }
            (Plain::EchoWord(words), Plain::EchoWord(other_words)) => are_same(words, other_words),
            (Plain::EchoSpace(words), Plain::EchoSpace(other_words)) => {
                are_same(words, other_words)
            }
            (
                Plain::Opens(filter, name, later),
                Plain::Opens(other_filter, other_name, other_later),
            ) => {
                filter.same(other_filter) && *name == *other_name && are_same(later, other_later)
            }
            (Plain::Works(work, source), Plain::Works(other_work, other_source)) => {
                work.same(other_work) && source.same(other_source)
            }
            (Plain::Closes(filter, later), Plain::Closes(other_filter, other_later)) => {
                filter.same(other_filter) && are_same(later, other_later)
            }
            (Plain::Told, Plain::Told) => true,
            (Plain::Ended, Plain::Ended) => true,
            _ => false,
        }
    }
}

// What is waited for, and what is kept in place for it.
pub fn goes_on<'t, A: Allocator>(next: Next<'t, A>, kept: &mut Kept) -> At<'t, A>
    ensures { at_of result kept.new.fds kept.new.block ≡ next_state next.entry }
{
    match next {
        Next::Stays(at) => At::Plain(at),
        Next::Searches(pattern, source) => {
            kept.block.refill(b"");
            At::Greps(Grep {
                pattern,
                source,
                search: Search::Reads,
            })
        }
        Next::Opens(name, later) => {
            kept.fds.clear();
            At::Tees(Tee::Opens(name, later))
        }
        Next::Reads => {
            kept.fds.clear();
            At::Tees(Tee::Reads)
        }
    }
}
