//! Turns: a Runnable process is given to hart 0, and at once its call is carried out.

ghost use Rattle.std.specs.Prelude.{◌≡◌, ◌<◌, ◌+◌, ◌^◌, Some, None, Ok, true, false, IfOk, count_by};
ghost use Rattle.proc_table.specs.Slots.{is_running};
ghost use Rattle.kernel_model.specs.Sound.{IsSound};
ghost use Rattle.kernel_model.specs.Turns.{after_turn};

use kernel_calls::{State, trap};
use kernel_model::Memory;
use proc_table::Pid;
use std::alloc::{AllocError, Allocator};
use user_calls::{CallSlot, Machine};

// The process takes a turn, and the result is `true`; `false` where it can't.
//
// `AllocError` where memory is refused to its call.
pub fn take_turn<M: Machine, A: Allocator + Copy>(
    state: &mut State<M, A>,
    pid: Pid,
    call: &mut CallSlot,
) -> Result<bool, AllocError>
    requires fits { state.old.events + 2 < 2 ^ 64 }
    requires idle { count_by is_running state.old.table ≡ 0 }
    requires sound { IsSound state.old.table state.old.entries }
    ensures turn { result ≡ Ok true → after_turn M.call_of M.next_of state.old pid ≡ Some state.new }
    ensures events { result ≡ Ok true → state.new.events ≡ state.old.events + 2 }
    ensures idle { result ≡ Ok true → count_by is_running state.new.table ≡ 0 }
    ensures sound { result ≡ Ok true → IsSound state.new.table state.new.entries }
{
    if !state.dispatch_pid(0, pid.index()) {
        return Ok(false);
    }
    state.ask(pid, call);
    match trap(state, pid, call) {
        Memory::Found => Ok(true),
        Memory::Refused => Err(AllocError),
    }
}
