//! Which channel each of the 64 lists of sleepers belongs to.

ghost use Rattle.std.specs.Prelude.{◌≡◌, ◌<◌, ◌↔◌, IsTrue, None, Some, replicate};
ghost use Rattle.proc_table.specs.declared.pid.TheConstants.{PROCS};
ghost use Rattle.proc_table.specs.Channels.{bucket_of, entry_key};

use crate::{Channel, PROCS};
use slot_lists::SlotGroups;
use std::marker::Model;

// The channel of each list, `None` where nobody sleeps. A channel's list is looked for at its bucket first, and then only
// among the lists of channels with the same bucket that stand away from it.
#[derive(Drop)]
pub(crate) struct Channels {
    channels: [Option<Channel>; PROCS],
    // The lists that are free, and for each bucket those that stand away from it.
    groups: SlotGroups<GROUPS>,
}

// The group of the free lists, and that of the lists that stand away from bucket 0.
const FREE: usize = 0;

const AWAY: usize = 1;

const GROUPS: usize = 65;

impl Model for Channels {
    ghost use Rattle.std.specs.Prelude.{List, Option};
    ghost use Rattle.proc_table.specs.declared.states.Channel.{Channel};
    ghost use Rattle.proc_table.specs.Channels.{AreChannels};

    ghost Value = { List (Option Channel) };

    ghost view = { λ c. c.channels };

    ghost invariant = { λ c. AreChannels c.channels c.groups };
}

impl Channels {
    ghost use Rattle.std.specs.Prelude.{◌≡◌, ◌≢◌, ℕ, ◌<◌, ◌↔◌, IfNone, IfSome, IsTrue, None, Some, replicate, slice_set};
    ghost use Rattle.proc_table.specs.declared.pid.TheConstants.{PROCS};
    ghost use Rattle.proc_table.specs.Channels.{IsClaimed, channel_of};

    // All lists are free.
    pub(crate) fn new() -> Self
        ensures { result ≡ replicate PROCS None }
    {
        Channels {
            channels: no_channels(),
            groups: SlotGroups::filled(FREE),
        }
    }

    // Becomes equal to the others.
    pub(crate) fn copy_from(&mut self, other: &Channels)
        ensures { self.new ≡ other.now }
    {
        self.channels.copy_from_slice(&other.channels);
        self.groups.copy_from(&other.groups);
    }

    // The list of the channel, if somebody sleeps on it.
    pub(crate) fn find(&self, channel: &Channel) -> Option<usize>
        ensures within { IfSome result (λ list. list < PROCS) }
        ensures some { IfSome result (λ list. channel_of self.now list ≡ Some channel.now) }
        ensures none { IfNone result ((list : ℕ) → channel_of self.now list ≢ Some channel.now) }
    {
        let home = bucket(channel);
        if self.is_of(home, channel) {
            return Some(home);
        }
        let mut away = self.groups.set(AWAY + home);
        for _step in 0..PROCS {
            let list = away.first()?;
            if self.is_of(list, channel) {
                return Some(list);
            }
            away = away.with(list, false);
        }
        None
    }

    // The list of the channel, which gets one where it has none; `None` where it has none and no list is free.
    pub(crate) fn claim(&mut self, channel: &Channel) -> Option<usize>
        ensures claimed { IfSome result (λ list. IsClaimed channel.now list self.old self.new) }
        ensures full { IfNone result ((list : ℕ) → list < PROCS → channel_of self.old list ≢ None) }
    {
        if let Some(list) = self.find(channel) {
            return Some(list);
        }
        let list = self.free(bucket(channel))?;
        self.put(list, Some(*channel));
        Some(list)
    }

    // The list is nobody's any more.
    pub(crate) fn release(&mut self, list: usize)
        requires { list < PROCS }
        ensures { self.new ≡ slice_set self.old list None }
    {
        self.put(list, None);
    }

    // This list, where it is free, else some free one.
    fn free(&self, home: usize) -> Option<usize>
        requires { home < PROCS }
        ensures within { IfSome result (λ list. list < PROCS) }
        ensures some { IfSome result (λ list. channel_of self.now list ≡ None) }
        ensures none { IfNone result ((list : ℕ) → list < PROCS → channel_of self.now list ≢ None) }
    {
        if self.channels[home].is_none() {
            Some(home)
        } else {
            self.groups.first(FREE)
        }
    }

    // Whether the list is this channel's.
    fn is_of(&self, list: usize, channel: &Channel) -> bool
        requires { list < PROCS }
        ensures { IsTrue result ↔ (channel_of self.now list ≡ Some channel.now) }
    {
        names(&self.channels[list], channel)
    }

    // The list is this channel's now, or free.
    fn put(&mut self, list: usize, channel: Option<Channel>)
        requires { list < PROCS }
        ensures { self.new ≡ slice_set self.old list channel }
    {
        let was = self.channels[list];
        self.groups.put(list, key(list, &was), key(list, &channel));
        self.channels[list] = channel;
    }
}

// No channels.
fn no_channels() -> [Option<Channel>; PROCS]
    ensures { result ≡ replicate PROCS None }
{
    [None; PROCS]
}

// Where the channel's list is looked for first.
fn bucket(channel: &Channel) -> usize
    ensures value { result ≡ bucket_of channel.now }
    ensures within { result < PROCS }
{
    match channel {
        Channel::PipeBytes(pipe) => (pipe % 64) as usize,
        Channel::PipeRoom(pipe) => 63 - (pipe % 64) as usize,
        Channel::Children(pid) => pid.index(),
    }
}

// The group of a list of this channel.
fn key(list: usize, entry: &Option<Channel>) -> Option<usize>
    ensures { result ≡ entry_key list entry.now }
{
    match entry {
        None => Some(FREE),
        Some(channel) => {
            let home = bucket(channel);
            if home == list {
                None
            } else {
                Some(AWAY + home)
            }
        }
    }
}

// Whether the entry is this channel.
fn names(entry: &Option<Channel>, channel: &Channel) -> bool
    ensures { IsTrue result ↔ (entry.now ≡ Some channel.now) }
{
    match entry {
        Some(other) => channel.is(*other),
        None => false,
    }
}
