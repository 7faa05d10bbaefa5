//! The programs as machines.

ghost use Rattle.std.specs.Prelude.{◌≡◌};
ghost use Rattle.user_progs.specs.View.{first_state, found_start, found_state};

use crate::state::{At, Filter, Grep, Kept, Plain, Turn, goes_on};
use crate::{echo, filter, grep, head, tee};
use prog_parts::Program;
use sh_lexer::Bytes;
use std::alloc::Allocator;
use std::marker::Model;
use user_calls::{Call, CallSlot, Machine, Reply, ReplySlot};

/// The type whose model is the states of programs as plain data. No value of it is made.
#[derive(Drop)]
pub struct ProgState {
    nothing: (),
}

impl Model for ProgState {
    ghost use Rattle.user_progs.specs.Codes.{state_code};
    ghost use Rattle.user_progs.specs.State.{State, ended};

    ghost Value = { State };

    ghost coded = { state_code };

    ghost view = { λ s. ended };
}

/// A program with its words, which it borrows.
#[derive(Drop)]
pub struct Prog<'t, A: Allocator> {
    at: At<'t, A>,
    kept: Kept,
}

/// A program that was found, with its words, before it is begun.
#[derive(Drop)]
pub struct Start<'t, A: Allocator> {
    program: Program,
    arguments: &'t [Bytes<A>],
}

/// The program that the first of these words names (exactly `cat`, `echo`, `grep`, `head`, `tee` or `wc`; own: xv6 looks
/// a file up), over the others; none for another name, and for no words.
pub fn find<'t, A: Allocator>(words: &'t [Bytes<A>]) -> Option<Start<'t, A>>
    ensures { found_start result ≡ first_state words.now }
{
    let (name, arguments) = words.split_first()?;
    let program = Program::named(name.as_slice())?;
    Some(Start { program, arguments })
}

/// The program that `find` finds, begun.
///
/// One call moves at most 1,024 bytes: of a longer argument `echo` writes the first 1,024, and messages are cut there.
/// `tee` holds at most 16 files, as many as a process has descriptors, and ends at a later one as at a file that can't be
/// opened.
pub fn lookup<'t, A: Allocator>(words: &'t [Bytes<A>]) -> Option<Prog<'t, A>>
    ensures { found_state result ≡ first_state words.now }
{
    match find(words) {
        Some(start) => Some(start.begin()),
        None => None,
    }
}

impl<'t, A: Allocator> Start<'t, A> {
    ghost use Rattle.std.specs.Prelude.{◌≡◌};
    ghost use Rattle.user_progs.specs.View.{start_of, state_of};

    /// The program in its first state.
    pub fn begin(self) -> Prog<'t, A>
        ensures { state_of result ≡ start_of self.entry }
    {
        Prog {
            at: At::Plain(Plain::Begins(self.program, self.arguments)),
            kept: Kept::new(),
        }
    }
}

impl<'t, A: Allocator> Machine for Prog<'t, A> {
    ghost use Rattle.user_progs.specs.Codes.{state_code};
    ghost use Rattle.user_progs.specs.Turn.{call_of, next_of};
    ghost use Rattle.user_progs.specs.View.{state_of};

    type State = ProgState;

    ghost code = { state_code };

    ghost view = { λ program. state_of program };

    ghost call_of = { call_of };

    ghost next_of = { next_of };

    fn run(&mut self, reply: &Reply) -> Call {
        let mut slot = ReplySlot::new();
        slot.set(reply);
        let mut call = CallSlot::new();
        self.ask(&slot, &mut call);
        self.advance(&slot);
        call.to_call()
    }

    fn ask(&self, reply: &ReplySlot, call: &mut CallSlot) {
        match &self.at {
            At::Plain(at) => turn(at, reply).call.put(call),
            At::Greps(grep) => grep::ask(grep, &self.kept.block, reply, call),
            At::Tees(tee) => tee::ask(tee, &self.kept, reply).put(call),
        }
    }

    fn advance(&mut self, reply: &ReplySlot) {
        self.at = advanced(&self.at, &mut self.kept, reply);
    }

    fn twin(&self) -> Self {
        let kept = self.kept.twin();
        match &self.at {
            At::Plain(at) => Prog {
                at: At::Plain(at.twin()),
                kept,
            },
            At::Greps(grep) => Prog {
                at: At::Greps(grep.at(grep.search)),
                kept,
            },
            At::Tees(tee) => Prog {
                at: At::Tees(tee.twin()),
                kept,
            },
        }
    }

    fn same(&self, other: &Self) -> bool {
        match (&self.at, &other.at) {
            (At::Plain(at), At::Plain(other_at)) => at.same(other_at),
            (At::Greps(grep), At::Greps(other_grep)) => {
                grep::is_same(grep, &self.kept.block, other_grep, &other.kept.block)
            }
            (At::Tees(tee), At::Tees(other_tee)) => {
                tee::is_same(tee, &self.kept, other_tee, &other.kept)
            }
            _ => false,
        }
    }
}

ghost use Rattle.user_progs.specs.Turn.{turn, begins_program};
ghost use Rattle.user_progs.specs.View.{turn_of, plain_of, at_of};

// Where a program is past its call.
fn advanced<'t, A: Allocator>(at: &At<'t, A>, kept: &mut Kept, reply: &ReplySlot) -> At<'t, A>
    ensures { at_of result kept.new.fds kept.new.block ≡ (turn (at_of at.now kept.old.fds kept.old.block) reply.now).next }
{
    match at {
        At::Plain(at) => goes_on(turn(at, reply).next, kept),
        At::Greps(grep) => grep::advance(grep, kept, reply),
        At::Tees(tee) => tee::advance(tee, kept, reply),
    }
}

// What a program that keeps no bytes does with a reply.
fn turn<'a, 't, A: Allocator>(at: &'a Plain<'t, A>, reply: &'a ReplySlot) -> Turn<'a, 't, A>
    ensures { turn_of result ≡ turn (plain_of at.now) reply.now }
{
    match at {
        Plain::Begins(program, arguments) => return begins(*program, arguments),
        Plain::EchoWord(later) => return echo::end(later),
        Plain::EchoSpace(later) => return echo::next(later),
        Plain::Opens(filter, name, later) => return filter::opened(*filter, name, later, reply),
        Plain::Works(work, source) => {
            return filter::by_step(
                filter::work_step(work, source.name(), reply),
                work.filter(),
                source,
            );
        }
        Plain::Closes(filter, later) => return filter::closed(*filter, later, reply),
        Plain::Told => {}
        Plain::Ended => {}
    }
    Turn::exits()
}

// What it does first.
fn begins<'t, A: Allocator>(program: Program, arguments: &'t [Bytes<A>]) -> Turn<'t, 't, A>
    ensures { turn_of result ≡ begins_program program arguments.now }
{
    match program {
        Program::Cat => return filter::begins(Filter::Copying, arguments),
        Program::Echo => return echo::next(arguments),
        Program::Grep => return grep::begins(arguments),
        Program::Head => return head::begins(arguments),
        Program::Tee => return tee::begins(arguments),
        Program::Wc => return filter::begins(Filter::Counting, arguments),
    }
}
