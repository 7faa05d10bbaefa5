//! What a shell does with a reply.

ghost use Rattle.std.specs.Prelude.{◌≡◌, codes};
ghost use Rattle.sh_machine.specs.Turn.{old_fd, call_mode, execs, runs, runs_first, takes_first, top_turn, pipe_turn, side_turn, failed, shell_turn, on_fork, on_fd, on_done, on_unknown, calls, exits, tells};
ghost use Rattle.sh_machine.specs.State.{makes, forks_writer, forks_reader, waits_left};
ghost use Rattle.user_calls.specs.declared.calls.Call.TheVariants.{Wait};
ghost use Rattle.sh_machine.specs.declared.state.Phase.TheVariants.{Forks};
ghost use Rattle.sh_machine.specs.declared.state.Side.TheVariants.{Dups};
ghost use Rattle.sh_machine.specs.View.{rest_of, node_of, parent_of, shell_of, says_of, turn_of};

use crate::message;
use crate::naming::Naming;
use crate::node::{Node, Opened};
use crate::rest::Rest;
use crate::says::Says;
use crate::state::{At, Next, Parent, Phase, Side, Turn};
use script_load::{Line, Profile};
use sh_lexer::Bytes;
use sh_tree::Mode;
use std::alloc::Allocator;
use user_calls::{Mode as CallMode, ReplyKind, ReplySlot};
use user_progs::find;

// The descriptor that a redirection replaces.
fn old_fd(mode: Mode) -> usize
    ensures { result ≡ old_fd mode }
{
    match mode {
        Mode::Input => 0,
        Mode::Fresh => 1,
        Mode::Over => 1,
    }
}

// How a redirection opens its file.
fn call_mode(profile: Profile, mode: Mode) -> CallMode
    ensures { result ≡ call_mode profile mode }
{
    match mode {
        Mode::Input => CallMode::Input,
        Mode::Fresh => CallMode::Fresh,
        Mode::Over => match profile {
            Profile::Xv6 => CallMode::Over,
            Profile::Append => CallMode::Append,
        },
    }
}

// Runs a simple command.
fn execs<'t, A: Allocator, N: Naming>(words: &'t [Bytes<A>]) -> Turn<'t, A, N>
    ensures { turn_of result ≡ execs words.now }
{
    let Some((name, _)) = words.split_first() else {
        return Turn::exits();
    };
    match find(words) {
        Some(found) => Turn {
            call: Says::Exec(true),
            next: Next::Becomes(found),
        },
        None => Turn::calls(Says::Exec(false), At::Unknown(name.as_slice())),
    }
}

// Runs a tree.
fn runs<'t, A: Allocator, N: Naming>(tree: &Node<'t, A, N>) -> Turn<'t, A, N>
    ensures { turn_of result ≡ runs (node_of tree.now) }
{
    match tree.open() {
        Opened::Exec(words) => execs(words),
        Opened::Redir(mode, name, body) => Turn::calls(
            Says::Close(old_fd(mode)),
            At::ClosesOld(mode, name, body),
        ),
        Opened::Pipe(left, right) => Turn::calls(
            Says::MakePipe,
            At::Pipes(Parent::Makes(left, right)),
        ),
        Opened::List(left, right) => Turn::calls(Says::Fork, At::ForksLeft(left, right)),
        Opened::Back(body) => Turn::calls(Says::Fork, At::ForksBack(body)),
    }
}

// Runs the first of these lines, in the child that was forked for it.
fn runs_first<'t, A: Allocator, N: Naming>(rest: &Rest<'t, A, N>) -> Turn<'t, A, N>
    ensures { turn_of result ≡ runs_first (rest_of rest.now) }
{
    let Some((line, _)) = rest.lines().split_first() else {
        return Turn::exits();
    };
    match line {
        Line::Tree(tree) => return runs(&Node::first(rest, tree)),
        Line::Bad(fault, text) => return Turn::calls(
            message::fault(*fault, text.as_slice()),
            At::Told,
        ),
        Line::Cd(_) => {}
    }
    Turn::exits()
}

// Takes the first of these lines.
fn takes_first<'t, A: Allocator, N: Naming>(rest: &Rest<'t, A, N>) -> Turn<'t, A, N>
    ensures { turn_of result ≡ takes_first (rest_of rest.now) }
{
    let Some((line, _)) = rest.lines().split_first() else {
        return Turn::exits();
    };
    match line {
        Line::Tree(_) => {}
        Line::Bad(_, _) => {}
        Line::Cd(text) => {
            return Turn::calls(
                Says::Within(b"cannot cd ", text.as_slice(), b"\n"),
                At::Top(Phase::ToldCd, rest.twin()),
            );
        }
    }
    Turn::calls(Says::Fork, At::Top(Phase::Forks, rest.twin()))
}

// A fork was refused.
fn no_fork<'t, A: Allocator, N: Naming>() -> Turn<'t, A, N>
    ensures { turn_of result ≡ tells (codes "fork\n") }
{
    Turn::tells(b"fork\n")
}

// A child was forked for the first of these lines, or could not be.
fn forked_line<'t, A: Allocator, N: Naming>(
    rest: &Rest<'t, A, N>,
    reply: &ReplySlot,
) -> Turn<'t, A, N>
    ensures { turn_of result ≡ top_turn Forks (rest_of rest.now) reply.now }
{
    match reply.kind() {
        ReplyKind::Done => return Turn::calls(Says::Wait, At::Top(Phase::Waits, rest.twin())),
        ReplyKind::Child => return runs_first(rest),
        ReplyKind::Refused => return no_fork(),
        _ => {}
    }
    Turn::exits()
}

// The top shell.
fn top<'t, A: Allocator, N: Naming>(
    phase: Phase,
    rest: &Rest<'t, A, N>,
    reply: &ReplySlot,
) -> Turn<'t, A, N>
    ensures { turn_of result ≡ top_turn phase (rest_of rest.now) reply.now }
{
    match phase {
        Phase::Starts => return takes_first(rest),
        Phase::Forks => return forked_line(rest, reply),
        Phase::Waits => match reply.kind() {
            ReplyKind::Done => return takes_first(&rest.later()),
            _ => {}
        },
        Phase::ToldCd => return takes_first(&rest.later()),
    }
    Turn::exits()
}

// The pipe of these two sides was made, or could not be.
fn made<'t, A: Allocator, N: Naming>(
    left: &Node<'t, A, N>,
    right: &Node<'t, A, N>,
    reply: &ReplySlot,
) -> Turn<'t, A, N>
    ensures { turn_of result ≡ pipe_turn (makes (node_of left.now) (node_of right.now)) reply.now }
{
    match reply.kind() {
        ReplyKind::Ends(reader, writer) => {
            return Turn::calls(
                Says::Fork,
                At::Pipes(Parent::ForksWriter(left.twin(), right.twin(), reader, writer)),
            );
        }
        ReplyKind::Refused => return Turn::tells(b"pipe\n"),
        _ => {}
    }
    Turn::exits()
}

// A child was forked for the left side of a pipe, or could not be.
fn forked_writer<'t, A: Allocator, N: Naming>(
    left: &Node<'t, A, N>,
    right: &Node<'t, A, N>,
    reader: usize,
    writer: usize,
    reply: &ReplySlot,
) -> Turn<'t, A, N>
    ensures { turn_of result ≡ pipe_turn (forks_writer (node_of left.now) (node_of right.now) reader writer) reply.now }
{
    match reply.kind() {
        ReplyKind::Done => {
            return Turn::calls(
                Says::Fork,
                At::Pipes(Parent::ForksReader(right.twin(), reader, writer)),
            );
        }
        ReplyKind::Child => {
            return Turn::calls(
                Says::Close(1),
                At::Side(Side::Closes(writer, reader, writer), left.twin()),
            );
        }
        ReplyKind::Refused => return no_fork(),
        _ => {}
    }
    Turn::exits()
}

// A child was forked for the right side of a pipe, or could not be.
fn forked_reader<'t, A: Allocator, N: Naming>(
    right: &Node<'t, A, N>,
    reader: usize,
    writer: usize,
    reply: &ReplySlot,
) -> Turn<'t, A, N>
    ensures { turn_of result ≡ pipe_turn (forks_reader (node_of right.now) reader writer) reply.now }
{
    match reply.kind() {
        ReplyKind::Done => {
            return Turn::calls(Says::Close(reader), At::Pipes(Parent::ClosesReader(writer)));
        }
        ReplyKind::Child => {
            return Turn::calls(
                Says::Close(0),
                At::Side(Side::Closes(reader, reader, writer), right.twin()),
            );
        }
        ReplyKind::Refused => return no_fork(),
        _ => {}
    }
    Turn::exits()
}

// The process that makes a pipe.
fn pipe<'t, A: Allocator, N: Naming>(parent: &Parent<'t, A, N>, reply: &ReplySlot) -> Turn<'t, A, N>
    ensures { turn_of result ≡ pipe_turn (parent_of parent.now) reply.now }
{
    match parent {
        Parent::Makes(left, right) => return made(left, right, reply),
        Parent::ForksWriter(left, right, reader, writer) => {
            return forked_writer(left, right, *reader, *writer, reply);
        }
        Parent::ForksReader(right, reader, writer) => {
            return forked_reader(right, *reader, *writer, reply);
        }
        Parent::ClosesReader(writer) => {
            return after(reply, Says::Close(*writer), At::Pipes(Parent::ClosesWriter));
        }
        Parent::ClosesWriter => return after(reply, Says::Wait, At::Pipes(Parent::WaitsFirst)),
        Parent::WaitsFirst => return after(reply, Says::Wait, At::Pipes(Parent::WaitsSecond)),
        Parent::WaitsSecond => {}
    }
    Turn::exits()
}

// Makes this call once the last one was carried out.
fn after<'t, A: Allocator, N: Naming>(
    reply: &ReplySlot,
    call: Says<'t>,
    at: At<'t, A, N>,
) -> Turn<'t, A, N>
    ensures { turn_of result ≡ on_done reply.now (calls (says_of call.entry) (shell_of at.entry)) }
{
    match reply.kind() {
        ReplyKind::Done => return Turn::calls(call, at),
        _ => {}
    }
    Turn::exits()
}

// Runs this tree once the last call was carried out.
fn runs_after<'t, A: Allocator, N: Naming>(
    reply: &ReplySlot,
    tree: &Node<'t, A, N>,
) -> Turn<'t, A, N>
    ensures { turn_of result ≡ on_done reply.now (runs (node_of tree.now)) }
{
    match reply.kind() {
        ReplyKind::Done => return runs(tree),
        _ => {}
    }
    Turn::exits()
}

// A child of a pipe duplicated its end.
fn doubled<'t, A: Allocator, N: Naming>(
    reader: usize,
    writer: usize,
    tree: &Node<'t, A, N>,
    reply: &ReplySlot,
) -> Turn<'t, A, N>
    ensures { turn_of result ≡ side_turn (Dups reader writer) (node_of tree.now) reply.now }
{
    match reply.kind() {
        ReplyKind::Fd(_) => {
            return Turn::calls(
                Says::Close(reader),
                At::Side(Side::ClosesReader(writer), tree.twin()),
            );
        }
        _ => {}
    }
    Turn::exits()
}

// A child of a pipe.
fn side<'t, A: Allocator, N: Naming>(
    side: Side,
    tree: &Node<'t, A, N>,
    reply: &ReplySlot,
) -> Turn<'t, A, N>
    ensures { turn_of result ≡ side_turn side (node_of tree.now) reply.now }
{
    match side {
        Side::Closes(kept, reader, writer) => {
            return after(
                reply,
                Says::Dup(kept),
                At::Side(Side::Dups(reader, writer), tree.twin()),
            );
        }
        Side::Dups(reader, writer) => return doubled(reader, writer, tree, reply),
        Side::ClosesReader(writer) => {
            return after(
                reply,
                Says::Close(writer),
                At::Side(Side::ClosesWriter, tree.twin()),
            );
        }
        Side::ClosesWriter => {}
    }
    runs_after(reply, tree)
}

// Writes that something of this name failed, and exits then.
fn failed<'t, A: Allocator, N: Naming>(what: &'static [u8], name: &'t [u8]) -> Turn<'t, A, N>
    ensures { turn_of result ≡ failed what.now name.now }
{
    Turn::calls(Says::Within(what, name, b" failed\n"), At::Told)
}

// The call of a program that is unknown was answered.
fn not_found<'t, A: Allocator, N: Naming>(name: &'t [u8], reply: &ReplySlot) -> Turn<'t, A, N>
    ensures { turn_of result ≡ on_unknown reply.now (failed (codes "exec ") name.now) }
{
    match reply.kind() {
        ReplyKind::Refused => return failed(b"exec ", name),
        _ => {}
    }
    Turn::exits()
}

// The file of a redirection was opened, or could not be.
fn opened<'t, A: Allocator, N: Naming>(
    name: &'t [u8],
    body: &Node<'t, A, N>,
    reply: &ReplySlot,
) -> Turn<'t, A, N>
    ensures { turn_of result ≡ on_fd reply.now (runs (node_of body.now)) (failed (codes "open ") name.now) }
{
    match reply.kind() {
        ReplyKind::Fd(_) => return runs(body),
        ReplyKind::Refused => return failed(b"open ", name),
        _ => {}
    }
    Turn::exits()
}

// A child was forked for the left side of a list, or could not be.
fn forked_left<'t, A: Allocator, N: Naming>(
    left: &Node<'t, A, N>,
    right: &Node<'t, A, N>,
    reply: &ReplySlot,
) -> Turn<'t, A, N>
    ensures { turn_of result ≡ on_fork reply.now (calls Wait (waits_left (node_of right.now))) (runs (node_of left.now)) }
{
    match reply.kind() {
        ReplyKind::Done => return Turn::calls(Says::Wait, At::WaitsLeft(right.twin())),
        ReplyKind::Child => return runs(left),
        ReplyKind::Refused => return no_fork(),
        _ => {}
    }
    Turn::exits()
}

// A child was forked for a command behind `&`, or could not be.
fn forked_back<'t, A: Allocator, N: Naming>(
    body: &Node<'t, A, N>,
    reply: &ReplySlot,
) -> Turn<'t, A, N>
    ensures { turn_of result ≡ on_fork reply.now exits (runs (node_of body.now)) }
{
    match reply.kind() {
        ReplyKind::Child => return runs(body),
        ReplyKind::Refused => return no_fork(),
        _ => {}
    }
    Turn::exits()
}

// What a shell does with a reply.
pub fn turn<'t, A: Allocator, N: Naming>(
    profile: Profile,
    at: &At<'t, A, N>,
    reply: &ReplySlot,
) -> Turn<'t, A, N>
    ensures { turn_of result ≡ shell_turn profile (shell_of at.now) reply.now }
{
    match at {
        At::Top(phase, rest) => return top(*phase, rest, reply),
        At::Unknown(name) => return not_found(name, reply),
        At::ClosesOld(mode, name, body) => {
            let opens = Says::OpenFile(name, call_mode(profile, *mode));
            return after(reply, opens, At::OpensFile(name, body.twin()));
        }
        At::OpensFile(name, body) => return opened(name, body, reply),
        At::ForksLeft(left, right) => return forked_left(left, right, reply),
        At::WaitsLeft(right) => return runs_after(reply, right),
        At::Pipes(parent) => return pipe(parent, reply),
        At::Side(place, tree) => return side(*place, tree, reply),
        At::ForksBack(body) => return forked_back(body, reply),
        At::Told => {}
        At::Ended => {}
    }
    Turn::exits()
}
