//! Pipes by their places.

ghost use Rattle.std.specs.Prelude.{◌≡◌, IfOk};
ghost use Rattle.kernel_model.specs.Idle.{renamed_channel};
ghost use Rattle.order_search.specs.Places.{names_in, place_among};

use crate::fault::ExploreFault;
use kernel_calls::State;
use proc_table::Channel;
use std::alloc::{AllocError, Allocator, Global};
use user_calls::Machine;

// The names of the pipes, in the order in which they were made.
pub fn names_of<M: Machine, A: Allocator>(
    alloc: Global,
    state: &State<M, A>,
) -> Result<Vec<u64>, AllocError>
    ensures { IfOk result (λ names. names.items ≡ names_in state.now.pipes) }
{
    let mut names = Vec::new(alloc);
    for at in 0..state.pipes.count() {
        names.push(state.pipes.name(at))?;
    }
    Ok(names)
}

// The place of the pipe of that name; one past all places where there is none.
pub fn place_of(names: &[u64], name: u64) -> Result<u64, ExploreFault>
    ensures { IfOk result (λ place. place ≡ place_among names.now name) }
{
    let mut place: u64 = 0;
    for other in names {
        if name == *other {
            return Ok(place);
        }
        place += 1;
    }
    place.checked_add(name).ok_or(ExploreFault::TooLong)
}

// The channel, its pipe named by its place.
pub fn placed_channel(names: &[u64], channel: Channel) -> Result<Channel, ExploreFault>
    ensures { IfOk result (λ placed. placed ≡ renamed_channel (place_among names.now) channel) }
{
    match channel {
        Channel::PipeBytes(pipe) => Ok(Channel::PipeBytes(place_of(names, pipe)?)),
        Channel::PipeRoom(pipe) => Ok(Channel::PipeRoom(place_of(names, pipe)?)),
        Channel::Children(pid) => Ok(Channel::Children(pid)),
    }
}
