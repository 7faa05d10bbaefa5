//! Why a process can't take a turn, and who can wake it, in words.

use crate::ends::{holds, is_child};
use crate::narrator::Narrator;
use crate::text::Text;
use crate::words::{add_listed, add_pipe, add_process};
use proc_table::{Channel, PROCS, Pid, State};
use run_trace::End;
use user_calls::Machine;

// The processes that pass the test, by their numbers and, where that is asked for, their commands; `nobody` where there is none.
fn add_those<M: Machine, F: Fn(Pid) -> bool>(
    text: &mut Text,
    narrator: &Narrator<'_, M>,
    is_named: bool,
    test: F,
)
    requires { F.IsAlwaysCallable test }
{
    let mut before = "";
    for index in 0..PROCS {
        if let Some(pid) = Pid::new(index) {
            if test(pid) {
                text.add(before);
                text.number(index as u64);
                if is_named {
                    text.byte(b' ');
                    add_listed(text, narrator.doing(pid));
                }
                before = ", ";
            }
        }
    }
    if before.is_empty() {
        text.add("nobody");
    }
}

// The processes that hold this end of a pipe, with their commands.
pub(crate) fn add_holders<M: Machine>(
    text: &mut Text,
    narrator: &Narrator<'_, M>,
    name: u64,
    end: End,
) {
    let kernel = narrator.kernel();
    add_those(text, narrator, true, |pid| holds(kernel, pid, name, end));
}

/// Adds what a process sleeps on, in a few words, with the numbers of the others.
pub fn add_sleep<M: Machine>(
    text: &mut Text,
    narrator: &Narrator<'_, M>,
    pid: Pid,
    channel: Channel,
) {
    let kernel = narrator.kernel();
    match channel {
        Channel::Children(_) => {
            text.add("waits until a child exits: ");
            add_those(text, narrator, false, |child| is_child(kernel, child, pid));
        }
        Channel::PipeBytes(name) => {
            text.add("reads ");
            add_pipe(text, narrator, name);
            text.add(", empty, written by ");
            add_those(text, narrator, false, |other| {
                holds(kernel, other, name, End::Write)
            });
        }
        Channel::PipeRoom(name) => {
            text.add("writes ");
            add_pipe(text, narrator, name);
            text.add(", full, read by ");
            add_those(text, narrator, false, |other| {
                holds(kernel, other, name, End::Read)
            });
        }
    }
}

// Who else holds this end of the pipe, and so can wake the process.
fn add_wakers<M: Machine>(
    text: &mut Text,
    narrator: &Narrator<'_, M>,
    pid: Pid,
    name: u64,
    end: End,
) {
    let kernel = narrator.kernel();
    add_pipe(text, narrator, name);
    text.add(match end {
        End::Write => ", which is empty; ",
        End::Read => ", which is full; ",
    });
    add_those(text, narrator, true, |other| {
        other != pid && holds(kernel, other, name, end)
    });
    text.add(match end {
        End::Write => " can wake it, by a write there or the last close of the write end",
        End::Read => " can wake it, by a read there or the last close of the read end",
    });
}

// The process waits for a child, and each of its children can wake it; and init, who inherits children.
fn add_parents<M: Machine>(text: &mut Text, narrator: &Narrator<'_, M>, pid: Pid) {
    let kernel = narrator.kernel();
    text.add("it waits until a child exits; ");
    add_those(text, narrator, true, |child| is_child(kernel, child, pid));
    text.add(" can wake it, by an exit");
    if pid == Pid::init() {
        text.add(", and so can a process that exits and leaves it a zombie");
    }
}

// What a process sleeps on, and who can wake it.
fn add_sleeper<M: Machine>(
    text: &mut Text,
    narrator: &Narrator<'_, M>,
    pid: Pid,
    channel: Channel,
) {
    text.add(" sleeps: ");
    match channel {
        Channel::Children(_) => add_parents(text, narrator, pid),
        Channel::PipeBytes(name) => {
            text.add("it reads ");
            add_wakers(text, narrator, pid, name, End::Write);
        }
        Channel::PipeRoom(name) => {
            text.add("it writes to ");
            add_wakers(text, narrator, pid, name, End::Read);
        }
    }
}

// Adds a sentence on why the process in this slot can't take a turn, and who can wake it, or that it can.
pub(crate) fn add_why<M: Machine>(text: &mut Text, narrator: &Narrator<'_, M>, pid: Pid) {
    let kernel = narrator.kernel();
    if let State::Free = kernel.state(pid) {
        text.add("there is no process ");
        text.number(pid.index() as u64);
        return;
    }
    add_process(text, pid, narrator.doing(pid));
    match kernel.state(pid) {
        State::Free => {}
        State::Runnable => text.add(" can go on: it is runnable"),
        State::Running(_) => text.add(" is running"),
        State::Asleep(channel) => add_sleeper(text, narrator, pid, channel),
        State::Zombie => {
            text.add(" is a zombie: it has exited, and process ");
            text.number(kernel.parent(pid).unwrap_or(Pid::init()).index() as u64);
            text.add(" hasn't waited for it yet");
        }
    }
}
