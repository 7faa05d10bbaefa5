//! Where all runs begin.

ghost use Rattle.std.specs.Prelude.{◌≡◌, ◌<◌, ◌^◌, ◌+◌, Some, IfOk, OnOk, count_by};
ghost use Rattle.proc_table.specs.Slots.{is_running};
ghost use Rattle.order_search.specs.Led.{start_kernel};
ghost use Rattle.kernel_model.specs.Sound.{IsSound};
ghost use Rattle.kernel_model.specs.Turns.{after_turn, after_turns};

use crate::fault::ExploreFault;
use crate::turning::take_turn;
use kernel_calls::State;
use mem_files::Files;
use proc_table::Pid;
use std::alloc::{Allocator, Global};
use user_calls::{CallSlot, Machine};

// The most turns of a run.
pub const MAX_TURNS: usize = 1_000_000_000;

/// What of a kernel's tables is free for whatever comes, after whatever turns. `false` is always right, and costs states.
#[derive(Clone, Copy, Debug, PartialEq, Eq)]
pub struct Ahead {
    /// Whether whatever is opened finds free open-file entries.
    pub entries: bool,
    /// Whether whoever forks finds a free slot.
    pub slots: bool,
}

// What a kernel is booted with.
#[derive(Drop)]
pub struct Origin<'t, M: Machine, C: Allocator> {
    pub init: M,
    pub shell: M,
    pub stdin: &'t [u8],
    pub files: &'t Files<C>,
    pub ahead: Ahead,
    // Whether every turn is tried in every state, where some turn gives way to nobody's too.
    pub is_full: bool,
}

impl<'t, M: Machine, C: Allocator> Origin<'t, M, C> {
    ghost use Rattle.std.specs.Prelude.{◌≡◌, true};
    ghost use Rattle.order_search.specs.Led.{start_kernel};

    // Whether the two are equal.
    pub fn same(&self, other: &Origin<'_, M, C>) -> bool
        ensures { result ≡ true → start_kernel (M.view self.now.init) (M.view self.now.shell) self.now.stdin.now self.now.files.now ≡ start_kernel (M.view other.now.init) (M.view other.now.shell) other.now.stdin.now other.now.files.now }
    {
        self.init.same(&other.init)
            && self.shell.same(&other.shell)
            && self.stdin == other.stdin
            && self.files.same(other.files)
    }
}

// The kernel after turns of these processes, at which no memory was refused.
pub fn remake<M: Machine, C: Allocator>(
    alloc: Global,
    origin: &Origin<'_, M, C>,
    pids: &[u8],
) -> Result<State<M, Global>, ExploreFault>
    ensures turns { IfOk result (λ state. after_turns M.call_of M.next_of (start_kernel (M.view origin.now.init) (M.view origin.now.shell) origin.now.stdin.now origin.now.files.now) pids.now ≡ Some state) }
    ensures few { IfOk result (λ state. state.events < 2 ^ 32) }
    ensures idle { IfOk result (λ state. count_by is_running state.table ≡ 0) }
    ensures sound { IfOk result (λ state. IsSound state.table state.entries) }
{
    if pids.len() >= MAX_TURNS {
        return Err(ExploreFault::TooLong);
    }
    let mut state = State::boot(
        alloc,
        origin.init.twin(),
        origin.shell.twin(),
        origin.stdin,
        origin.files,
    )?;
    let mut call = CallSlot::new();
    for pid in pids {
        turn_by(&mut state, *pid, &mut call)?;
    }
    Ok(state)
}

// The process in the slot of this number takes a turn.
pub fn turn_by<M: Machine>(
    state: &mut State<M, Global>,
    pid: u8,
    call: &mut CallSlot,
) -> Result<(), ExploreFault>
    requires fits { state.old.events + 2 < 2 ^ 64 }
    requires idle { count_by is_running state.old.table ≡ 0 }
    requires sound { IsSound state.old.table state.old.entries }
    ensures turn { OnOk result (after_turn M.call_of M.next_of state.old pid ≡ Some state.new) }
    ensures events { OnOk result (state.new.events ≡ state.old.events + 2) }
    ensures idle { OnOk result (count_by is_running state.new.table ≡ 0) }
    ensures sound { OnOk result (IsSound state.new.table state.new.entries) }
{
    let Some(slot) = Pid::new(usize::from(pid)) else {
        return Err(ExploreFault::TooLong);
    };
    if take_turn(state, slot, call)? {
        Ok(())
    } else {
        Err(ExploreFault::TooLong)
    }
}
