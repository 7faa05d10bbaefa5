//! What is known of a process's next call.

ghost use Rattle.std.specs.Prelude.{◌≡◌};
ghost use Rattle.fd_table.specs.Descriptors.{entry_of, lowest_free, holders_in};
ghost use Rattle.order_search.specs.Shown.{IsNextCall};

use user_calls::{CallKind, CallSlot, Machine, ReplySlot};

// The next call of a process, as far as it matters. `Unknown` is always right.
#[derive(Clone, Copy, Debug, PartialEq, Eq)]
pub enum NextCall {
    // No other process sees it.
    Private,
    // It closes a descriptor that holds this entry.
    Closes(u8),
    Forks,
    // It waits for a child.
    Waits,
    Exits,
    Unknown,
}

// What a close of a descriptor closes.
#[derive(Clone, Copy, Debug, PartialEq, Eq)]
pub enum CloseOf {
    // The read end of this pipe.
    ReadEnd(u64),
    // Anything else.
    Other,
    // It isn't open.
    Nothing,
}

// The call that the machine makes of the reply, of a process whose descriptors hold these entries. It is written to `call`.
pub fn next_call<M: Machine>(
    machine: &M,
    reply: &ReplySlot,
    places: &[Option<u8>],
    call: &mut CallSlot,
) -> NextCall
    ensures { IsNextCall places.now (M.call_of (M.view machine.now) reply.now) result }
{
    machine.ask(reply, call);
    known_of(call, places)
}

// The call of a process whose descriptors hold these entries: an exec, a dup where a place is free, and a close where another
// descriptor holds the same entry are private.
fn known_of(call: &CallSlot, places: &[Option<u8>]) -> NextCall
    ensures { IsNextCall places.now call.now result }
{
    match call.kind() {
        CallKind::Exec(_) => NextCall::Private,
        CallKind::Fork => NextCall::Forks,
        CallKind::Wait => NextCall::Waits,
        CallKind::Exit => NextCall::Exits,
        CallKind::Dup(fd) => {
            if entry_of(places, fd).is_some() && lowest_free(places).is_some() {
                NextCall::Private
            } else {
                NextCall::Unknown
            }
        }
        CallKind::Close(fd) => match entry_of(places, fd) {
            None => NextCall::Unknown,
            Some(entry) => {
                if holders_in(places, entry) >= 2 {
                    NextCall::Private
                } else {
                    NextCall::Closes(entry)
                }
            }
        },
        _ => NextCall::Unknown,
    }
}

// The entry that a descriptor holds.
fn entry_of(places: &[Option<u8>], fd: usize) -> Option<u8>
    ensures { result ≡ entry_of places.now fd }
{
    if fd < places.len() { places[fd] } else { None }
}

// The lowest free place.
fn lowest_free(places: &[Option<u8>]) -> Option<usize>
    ensures { result ≡ lowest_free places.now }
{
    places.iter().position(|place| place.is_none())
}

// How many descriptors hold the entry.
fn holders_in(places: &[Option<u8>], entry: u8) -> usize
    ensures { result ≡ holders_in places.now entry }
{
    places.iter().filter(|place| **place == Some(entry)).count()
}
