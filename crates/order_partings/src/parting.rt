//! The first turn at which two schedules differ.

ghost use Rattle.std.specs.Prelude.{◌≡◌};
ghost use Rattle.script_load.specs.Line.{lines_of};

use crate::aligning::shared;
use crate::deeds::deed_of;
use crate::turner::Turner;
use kernel_events::{Kernel, Setting};
use proc_table::Pid;
use sh_machine::{Naming, User};
use std::alloc::{AllocError, Global};
use std::marker::Brand;
use user_calls::Machine;

/// Where two schedules part: the number of the first event at which they differ, counted from 1, and in words which process
/// does what by its turn in the one and in the other.
#[derive(Drop)]
pub struct Parting {
    pub event: usize,
    pub one: Vec<u8>,
    pub other: Vec<u8>,
}

// The process of this number.
fn pid_at(pids: &[u8], place: usize) -> Option<Pid> {
    let pid = pids.get(place)?;
    Pid::new(usize::from(*pid))
}

// Leads the kernel by as many turns, and returns whether it took them.
fn lead<M: Machine>(turner: &mut Turner<'_, M>, pids: &[u8]) -> Result<bool, AllocError> {
    for place in 0..pids.len() {
        let Some(pid) = pid_at(pids, place) else {
            return Ok(false);
        };
        if !turner.dispatch(pid)? || !turner.trap(pid)? {
            return Ok(false);
        }
    }
    Ok(true)
}

// What happens at a turn of a schedule, of a kernel at its start.
fn deed_by<M: Machine>(
    alloc: Global,
    turner: &mut Turner<'_, M>,
    pids: &[u8],
    place: usize,
) -> Result<Option<Vec<u8>>, AllocError> {
    let Some(pid) = pid_at(pids, place) else {
        return Ok(None);
    };
    if !lead(turner, &pids[..place.min(pids.len())])? {
        return Ok(None);
    }
    deed_of(alloc, turner, pid)
}

// The same of a kernel that nothing follows yet.
fn deed_from<M: Machine>(
    alloc: Global,
    setting: &Setting<'_, Global, Global>,
    kernel: Kernel<M, Global>,
    pids: &[u8],
    place: usize,
) -> Result<Option<Vec<u8>>, AllocError> {
    let mut turner = Turner::new(kernel, setting.script);
    deed_by(alloc, &mut turner, pids, place)
}

// The same of a run of the script that `N` names.
fn deed_named<N: Naming>(
    alloc: Global,
    setting: &Setting<'_, Global, Global>,
    pids: &[u8],
    place: usize,
) -> Result<Option<Vec<u8>>, AllocError>
    requires { lines_of setting.now.script.now.lines ≡ N.script }
{
    let init = User::<Global, N>::init();
    let shell = User::shell(setting.script);
    let kernel = Kernel::boot(alloc, init, shell, setting.stdin, setting.files)?;
    deed_from(alloc, setting, kernel, pids, place)
}

// What happens at a turn of a schedule.
fn deed_at(
    alloc: Global,
    setting: &Setting<'_, Global, Global>,
    pids: &[u8],
    place: usize,
) -> Result<Option<Vec<u8>>, AllocError> {
    deed_named::<Brand>(alloc, setting, pids, place)
}

/// Where the two schedules part, and what happens then in the one and in the other; `None` where one of them ends there, or can't
/// be followed.
pub fn part(
    alloc: Global,
    setting: &Setting<'_, Global, Global>,
    one: &[u8],
    other: &[u8],
) -> Result<Option<Parting>, AllocError> {
    let place = shared(one, other);
    let event = place.saturating_mul(2).saturating_add(1);
    match (
        deed_at(alloc, setting, one, place)?,
        deed_at(alloc, setting, other, place)?,
    ) {
        (Some(one), Some(other)) => Ok(Some(Parting { event, one, other })),
        _ => Ok(None),
    }
}
