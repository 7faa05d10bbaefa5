//! A process on its way through user code.

ghost use Rattle.std.specs.Prelude.{◌≡◌};

use crate::gates::Gate;
use crate::naming::Run;
use crate::seats::Seat;
use kernel_events::Task;
use std::sync::Wait;
use user_calls::{Call, Machine};

// The process of the task runs on the hart of the seat, up to its next call; a twin of its machine runs in its place.
pub(crate) fn run_task<N: Run, M: Machine, R: Wait, G: Gate>(
    rt: &R,
    seat: &Seat<N>,
    task: &Task<M>,
    gate: &G,
    twin: &mut M,
) -> Call
    requires twin { M.view twin.old ≡ M.view task.now.machine }
    ensures call { result ≡ M.call_of (M.view task.now.machine) task.now.reply }
    ensures after { M.view twin.new ≡ M.next_of (M.view task.now.machine) task.now.reply }
{
    gate.enter(rt, seat.hart(), task.pid);
    twin.run(&task.reply)
}
