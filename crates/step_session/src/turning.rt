//! Turns of a kernel, on hart 0.

ghost use Rattle.std.specs.Prelude.{◌≡◌, IfOk, IfSome, OnErr, OnOk, IsErr, Err, Ok, None, All, true, false, count_by, []};
ghost use Rattle.proc_table.specs.Slots.{at, is_runnable, is_running};
ghost use Rattle.kernel_model.specs.declared.events.Event.TheVariants.{Trap};
ghost use Rattle.kernel_model.specs.History.{GoesOn};
ghost use Rattle.kernel_model.specs.KernelState.{KernelState};
ghost use Rattle.step_session.specs.Sessions.{IsBegun, IsSession, Takes};

use crate::fault::BackFault;
use kernel_events::{Event, Kernel, Stranger, Task};
use proc_table::Pid;
use std::alloc::{AllocError, Global};
use user_calls::{Machine, Ran};

// The process that was given to hart 0 makes its call.
fn make_call<M: Machine>(kernel: &mut Kernel<M, Global>, task: Task<M>)
    requires begun { IsBegun (at kernel.old.now.table task.pid) (M.view task.machine) task.reply }
    ensures { GoesOn M.call_of M.next_of kernel.old (Trap 0 task.pid) kernel.new }
{
    let ran = Ran::make(task.machine, task.reply);
    match kernel.trap(0, task.pid, ran) {
        Ok(()) => {}
        Err(Stranger) => unreachable!(),
    }
}

// The process in slot `pid` takes a turn, and the result is `true`; `false`, with nothing changed, where it isn't Runnable.
//
// `AllocError`, with nothing changed, where memory for the schedule is refused, and only where it is Runnable.
pub(crate) fn take_turn<M: Machine>(
    kernel: &mut Kernel<M, Global>,
    pid: usize,
) -> Result<bool, AllocError>
    requires idle { count_by is_running kernel.old.now.table ≡ 0 }
    ensures turn { result ≡ Ok true → Takes M.call_of M.next_of kernel.old pid kernel.new }
    ensures refused { result ≡ Ok false → is_runnable (at kernel.old.now.table pid) ≡ false }
    ensures same { result ≡ Ok false → kernel.new ≡ kernel.old }
    ensures err { OnErr result (kernel.new ≡ kernel.old) }
    ensures could { IsErr result → is_runnable (at kernel.old.now.table pid) ≡ true }
    ensures stays { (start : KernelState M.State) → IsSession start kernel.old → IsSession start kernel.new }
{
    kernel.is_paired();
    match kernel.dispatch_pid(0, pid)? {
        Some(task) => {
            make_call(kernel, task);
            kernel.is_paired();
            Ok(true)
        }
        None => Ok(false),
    }
}

// The process that the kernel chooses takes a turn; `None` where none is Runnable. `AllocError` as with `take_turn`.
pub(crate) fn take_next<M: Machine>(
    kernel: &mut Kernel<M, Global>,
) -> Result<Option<Pid>, AllocError>
    requires idle { count_by is_running kernel.old.now.table ≡ 0 }
    ensures turn { IfOk result (λ found. IfSome found (λ pid. Takes M.call_of M.next_of kernel.old pid kernel.new)) }
    ensures none { result ≡ Ok None → All (λ slot. is_runnable slot ≡ false) kernel.old.now.table }
    ensures same { result ≡ Ok None → kernel.new ≡ kernel.old }
    ensures err { OnErr result (kernel.new ≡ kernel.old) }
    ensures stays { (start : KernelState M.State) → IsSession start kernel.old → IsSession start kernel.new }
{
    kernel.is_paired();
    match kernel.dispatch(0)? {
        Some(task) => {
            let pid = task.pid;
            make_call(kernel, task);
            kernel.is_paired();
            Ok(Some(pid))
        }
        None => Ok(None),
    }
}

// Lets these events happen, in order.
//
// `Memory` where one can't: then memory was refused to a call before.
pub(crate) fn carry_out<M: Machine>(
    kernel: &mut Kernel<M, Global>,
    events: &[Event],
) -> Result<(), BackFault>
    requires { kernel.old.schedule ≡ [] }
    ensures boot { kernel.new.boot ≡ kernel.old.boot }
    ensures schedule { OnOk result (kernel.new.schedule ≡ events.now) }
    ensures fault { IsErr result → result ≡ Err BackFault.Memory }
{
    for (place, event) in events.iter().enumerate() {
        if !kernel.happen(*event)? {
            return Err(BackFault::Memory);
        }
    }
    Ok(())
}
