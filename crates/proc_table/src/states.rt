//! The states of processes, and what they sleep on.

ghost use Rattle.std.specs.Prelude.{◌≡◌};
ghost use Rattle.proc_table.specs.Slots.{same_channel, state_by};

use crate::Pid;

/// What a process sleeps on (xv6's `chan`). A pipe is named by a number that the caller who makes it chooses.
#[derive(Clone, Copy, Debug, PartialEq, Eq)]
pub enum Channel {
    /// That a pipe has bytes, or no writer any more.
    PipeBytes(u64),
    /// That a pipe has room, or no reader any more.
    PipeRoom(u64),
    /// That a child of this process exits.
    Children(Pid),
}

impl Channel {
    // Whether the two are one channel.
    pub(crate) fn is(self, other: Channel) -> bool
        ensures { result ≡ same_channel self other }
    {
        match self {
            Channel::PipeBytes(pipe) => matches!(other, Channel::PipeBytes(other) if pipe == other),
            Channel::PipeRoom(pipe) => matches!(other, Channel::PipeRoom(other) if pipe == other),
            Channel::Children(pid) => match other {
                Channel::Children(other) => pid.index() == other.index(),
                _ => false,
            },
        }
    }
}

/// The state of a slot (xv6's `enum procstate`; its `USED` is never seen between calls).
#[derive(Clone, Copy, Debug, PartialEq, Eq)]
pub enum State {
    /// No process is in it.
    Free,
    /// Its process waits for a hart.
    Runnable,
    /// Its process runs on this hart.
    Running(u8),
    /// Its process sleeps on this channel.
    Asleep(Channel),
    /// Its process has exited, and its parent hasn't waited for it yet.
    Zombie,
}

/// The state of a process, that is of a slot that isn't free (xv6's `enum procstate`).
#[derive(Clone, Copy, Debug, PartialEq, Eq)]
pub enum Status {
    /// It waits for a hart.
    Runnable,
    /// It runs on this hart.
    Running(u8),
    /// It sleeps on this channel.
    Asleep(Channel),
    /// It has exited, and its parent hasn't waited for it yet.
    Zombie,
}

impl Status {
    // The state of the slot.
    pub(crate) fn state(self) -> State
        ensures { result ≡ state_by self }
    {
        match self {
            Status::Runnable => State::Runnable,
            Status::Running(hart) => State::Running(hart),
            Status::Asleep(channel) => State::Asleep(channel),
            Status::Zombie => State::Zombie,
        }
    }
}
