//! Dispatches of a kernel that runs a script.

ghost use Rattle.std.specs.Prelude.{◌≡◌, ◌<◌, false, Ok, All, IfOk, IfSome, OnErr, IsErr, count_by};
ghost use Rattle.proc_table.specs.Slots.{at, is_runnable, is_running, is_running_on};
ghost use Rattle.proc_table.specs.declared.table.TheConstants.{HARTS};
ghost use Rattle.kernel_model.specs.History.{GoesOn, IsTask};
ghost use Rattle.kernel_model.specs.declared.events.Event.TheVariants.{Dispatch};
ghost use Rattle.sh_machine.specs.Turn.{call_of, next_of};
ghost use Rattle.sh_machine.specs.View.{user_of};
ghost use Rattle.run_model.specs.Plain.{IsPlainRun};

use crate::facts::nothing_is_runnable_only_while_one_runs_elsewhere;
use kernel_events::{Kernel, Task};
use sh_machine::{Naming, User};
use std::alloc::{AllocError, Allocator};

/// A dispatch on the hart, which runs nothing, as `Kernel::dispatch`. In a run of a script without `&` in which nothing was
/// full it answers `None` only while some process runs on another hart.
///
/// `AllocError` where room for the event is refused; nothing changes then.
pub fn dispatch<'t, B: Allocator, N: Naming, A: Allocator>(
    kernel: &mut Kernel<User<'t, B, N>, A>,
    hart: u8,
) -> Result<Option<Task<User<'t, B, N>>>, AllocError>
    requires hart { hart < HARTS }
    requires idle { All (λ slot. is_running_on hart slot ≡ false) kernel.old.now.table }
    ensures none { result ≡ Ok None → IsPlainRun kernel.old → 0 < count_by is_running kernel.old.now.table }
    ensures same { result ≡ Ok None → kernel.new ≡ kernel.old }
    ensures err { OnErr result (kernel.new ≡ kernel.old) }
    ensures could { IsErr result → 0 < count_by is_runnable kernel.old.now.table }
    ensures event { IfOk result (λ found. IfSome found (λ task. GoesOn call_of next_of kernel.old (Dispatch hart task.pid) kernel.new)) }
    ensures task { IfOk result (λ found. IfSome found (λ task. IsTask (at kernel.old.now.table task.pid) (user_of task.machine) task.reply)) }
{
    nothing_is_runnable_only_while_one_runs_elsewhere(kernel);
    kernel.dispatch(hart)
}
