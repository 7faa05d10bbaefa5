//! What the programs that work on their inputs one by one have in common: standard input where there are no file
//! words, else each file, which is opened, worked on and closed.

ghost use Rattle.std.specs.Prelude.{◌≡◌};
ghost use Rattle.user_progs.specs.Turn.{begins_filter, opens_next, opened_by, closed_by, turn_by, after_source, first_step, work_step, name_of_program, fd_in, done_in};
ghost use Rattle.user_progs.specs.View.{turn_of, step_of, filter_of_code, work_of_code, source_of_code};

use crate::says::Says;
use crate::state::{Filter, Next, Plain, Source, Step, Turn, Work};
use crate::{cat, head, wc};
use prog_parts::BUFFER;
use sh_lexer::Bytes;
use std::alloc::Allocator;
use user_calls::{Mode, ReplyKind, ReplySlot};

// Begins with these file words.
pub fn begins<'t, A: Allocator>(filter: Filter<'t>, names: &'t [Bytes<A>]) -> Turn<'t, 't, A>
    ensures { turn_of result ≡ begins_filter (filter_of_code filter.entry) names.now }
{
    if names.is_empty() {
        return starts(filter, Source::Standard);
    }
    opens_next(filter, names)
}

// Opens the first of these files.
pub fn opens_next<'t, A: Allocator>(filter: Filter<'t>, names: &'t [Bytes<A>]) -> Turn<'t, 't, A>
    ensures { turn_of result ≡ opens_next (filter_of_code filter.entry) names.now }
{
    let Some((name, later)) = names.split_first() else {
        return Turn::exits();
    };
    Turn::stays(
        Says::OpenFile(name.as_slice(), Mode::Input),
        Plain::Opens(filter, name.as_slice(), later),
    )
}

// The file of this name was opened, or could not be.
pub fn opened<'t, A: Allocator>(
    filter: Filter<'t>,
    name: &'t [u8],
    later: &'t [Bytes<A>],
    reply: &ReplySlot,
) -> Turn<'t, 't, A>
    ensures { turn_of result ≡ opened_by (filter_of_code filter.entry) name.now later.now (fd_in reply.now) }
{
    match reply.kind() {
        ReplyKind::Fd(fd) => starts(filter, Source::File(fd, name, later)),
        ReplyKind::Refused => Turn::stays(
            Says::CannotOpen(program_name(filter), name),
            Plain::Told,
        ),
        _ => Turn::exits(),
    }
}

// A file was closed, or could not be.
pub fn closed<'t, A: Allocator>(
    filter: Filter<'t>,
    later: &'t [Bytes<A>],
    reply: &ReplySlot,
) -> Turn<'t, 't, A>
    ensures { turn_of result ≡ closed_by (filter_of_code filter.entry) later.now (done_in reply.now) }
{
    match reply.kind() {
        ReplyKind::Done => opens_next(filter, later),
        _ => Turn::exits(),
    }
}

fn program_name(filter: Filter<'_>) -> &'static [u8]
    ensures { result.now ≡ name_of_program (filter_of_code filter.entry) }
{
    match filter {
        Filter::Copying => b"cat",
        Filter::Heading(_) => b"head",
        Filter::Counting => b"wc",
        Filter::Searching(_) => b"grep",
    }
}

// Does what the work on this input does next.
pub fn by_step<'a, 't, A: Allocator>(
    step: Step<'a>,
    filter: Filter<'t>,
    source: &Source<'t, A>,
) -> Turn<'a, 't, A>
    ensures { turn_of result ≡ turn_by (step_of step.entry) (filter_of_code filter.entry) (source_of_code source.now) }
{
    match step {
        Step::Reads(most, work) => {
            return Turn::stays(
                Says::Read(source.fd(), most),
                Plain::Works(work, source.twin()),
            );
        }
        Step::Writes(bytes, work) => {
            return Turn::stays(Says::Write(1, bytes), Plain::Works(work, source.twin()));
        }
        Step::Tells(counts, name) => {
            return Turn::stays(
                Says::Counts(counts, name),
                Plain::Works(Work::WcWrites, source.twin()),
            );
        }
        Step::Finishes => return after_source(filter, source),
        Step::Fails(message) => return Turn::tells(message),
        Step::Quits => {}
    }
    Turn::exits()
}

// The work on this input is done.
pub fn after_source<'t, A: Allocator>(
    filter: Filter<'t>,
    source: &Source<'t, A>,
) -> Turn<'static, 't, A>
    ensures { turn_of result ≡ after_source (filter_of_code filter.entry) (source_of_code source.now) }
{
    let Source::File(fd, _, later) = source else {
        return Turn::exits();
    };
    Turn::stays(Says::Close(*fd), Plain::Closes(filter, later))
}

// Does what is done first with an input.
fn starts<'t, A: Allocator>(filter: Filter<'t>, source: Source<'t, A>) -> Turn<'static, 't, A>
    ensures { turn_of result ≡ turn_by (first_step (filter_of_code filter.entry)) (filter_of_code filter.entry) (source_of_code source.entry) }
{
    match filter {
        Filter::Copying => by_step(Step::Reads(cat::CHUNK, Work::CatReads), filter, &source),
        Filter::Heading(lines) => by_step(head::goes_on(lines, lines), filter, &source),
        Filter::Counting => by_step(
            Step::Reads(cat::CHUNK, Work::WcReads(wc::NOTHING)),
            filter,
            &source,
        ),
        Filter::Searching(pattern) => Turn {
            call: Says::Read(source.fd(), BUFFER),
            next: Next::Searches(pattern, source),
        },
    }
}

// What is done with a reply; the input has this name.
pub fn work_step<'a>(work: &Work, name: &'a [u8], reply: &'a ReplySlot) -> Step<'a>
    ensures { step_of result ≡ work_step (work_of_code work.now) name.now reply.now }
{
    match work {
        Work::CatReads => return cat::got(reply),
        Work::CatWrites => return cat::wrote(reply),
        Work::HeadReads(lines, left) => return head::got(*lines, *left, reply),
        Work::HeadWrites(lines, left) => return head::wrote(*lines, *left, reply),
        Work::WcReads(counts) => return wc::got(counts, name, reply),
        Work::WcWrites => {}
    }
    Step::Finishes
}
