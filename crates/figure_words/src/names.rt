//! How a process is called: its command, and its place in the script.

use crate::markup::{Page, Piece};
use crate::run::{Run, place_of};
use crate::words::add_doing;
use Piece::{Mark, Num};
use run_figure::Lane;
use std::alloc::Allocator;
use trace_read::{Doing, Event, Node, Process};

// How many pipes at most are above a process whose place in them is shown.
const MOST_ABOVE: usize = 64;

/// The lane of a process.
pub fn lane_of<A: Allocator>(run: &Run<'_, A>, process: Process) -> Option<Lane> {
    let lives = run.lives.as_slice();
    match lives.get(place_of(lives, process)) {
        Some(life) if life.lane.process == process => Some(life.lane),
        _ => None,
    }
}

// The event that made a process, if one did.
fn birth_of<'a, A: Allocator>(run: &Run<'a, A>, process: Process) -> Option<&'a Event> {
    let events = run.trace.events.as_slice();
    events.get(process.born.wrapping_sub(1))
}

// Whether a process was made for a side of a pipe.
fn is_of_pipe<A: Allocator>(run: &Run<'_, A>, process: Process) -> bool {
    match birth_of(run, process) {
        Some(event) => event.doing.node == Some(Node::Pipe),
        None => false,
    }
}

// How many processes were made for sides of the same pipe before this lane's.
fn before_in_pipe<A: Allocator>(run: &Run<'_, A>, lane: Lane) -> usize {
    let mut count: usize = 0;
    let lives = run.lives.as_slice();
    let first = place_of(lives, lane.maker);
    for life in lives.get(first..).unwrap_or(&[]) {
        if life.lane.process == lane.process {
            break;
        }
        if life.lane.maker == lane.maker && is_of_pipe(run, life.lane.process) {
            count = count.saturating_add(1);
        }
    }
    count
}

/// The place of a process in its pipe line, counted from 1; 0 of one that is in none.
pub fn stage_of<A: Allocator>(run: &Run<'_, A>, process: Process) -> usize {
    let mut stage: usize = 0;
    let mut climber = process;
    for _pipe in 0..MOST_ABOVE {
        if !is_of_pipe(run, climber) {
            break;
        }
        let Some(lane) = lane_of(run, climber) else {
            break;
        };
        stage = stage.max(1).saturating_add(before_in_pipe(run, lane));
        climber = lane.maker;
    }
    stage
}

// Whether a process before this one had its number.
fn is_again<A: Allocator>(run: &Run<'_, A>, process: Process) -> bool {
    let lives = run.lives.as_slice();
    let before = lives.get(..place_of(lives, process)).unwrap_or(&[]);
    before
        .iter()
        .any(|life| life.lane.process.pid == process.pid)
}

// What a process was made for, if that is one command.
fn command_of<A: Allocator>(run: &Run<'_, A>, process: Process) -> Option<Doing> {
    let trap = birth_of(run, process)?.trap?;
    let doing = trap.child?.doing;
    match doing.node {
        Some(Node::Exec | Node::Redir) if doing.command.is_some() => Some(doing),
        _ => None,
    }
}

/// What a process is called by: the command that it was made for, or else what it carries out at this event.
pub fn doing_of<A: Allocator>(run: &Run<'_, A>, event: &Event) -> Doing {
    match command_of(run, event.process) {
        Some(doing) => doing,
        None => event.doing,
    }
}

/// The command by which the process of an event is called, in so many columns, without its number.
pub fn add_command<A: Allocator + Copy>(
    page: &mut Page<A>,
    run: &Run<'_, A>,
    event: &Event,
    room: usize,
) {
    let doing = doing_of(run, event);
    page.mark("<code>");
    match doing.command {
        Some(command) => {
            page.add(&[Piece::Short(run.trace.text(command), room)]);
        }
        None => add_doing(page, run, &doing, room),
    }
    page.mark("</code>");
}

/// Where the command of the process of an event stands in the script, as far as that is known, and the number of the process.
pub fn add_place<A: Allocator>(page: &mut Page<A>, run: &Run<'_, A>, event: &Event) {
    match doing_of(run, event).line {
        Some(line) => page.fill("line %, ", &[Num(line)]),
        None => {}
    }
    match stage_of(run, event.process) {
        0 => {}
        stage => page.fill("stage %, ", &[Num(stage)]),
    }
    let again = if is_again(run, event.process) {
        ", a number used before"
    } else {
        ""
    };
    page.fill(
        "process %%",
        &[Num(event.process.pid as usize), Mark(again)],
    );
}
