//! The laws of every run, of the state that a kernel is in: each function's contract is the law, and it changes nothing.
//!
//! A kernel's type keeps that it was booted, and that its schedule leads to its state; so these functions require nothing.

ghost use Rattle.std.specs.Prelude.{◌≡◌, ◌++◌, ◌↔◌, ◌<◌, ℕ, Some, true, false, All, count_by, length};
ghost use Rattle.mem_files.specs.Files.{files};
ghost use Rattle.tree_model.specs.Tidy.{IsClearScript};
ghost use Rattle.proc_table.specs.Slots.{is_runnable, is_running};
ghost use Rattle.kernel_model.specs.Events.{IsFinished};
ghost use Rattle.run_model.specs.Plain.{IsPlainRun};
ghost use Rattle.step_bounds.specs.Most.{most_events};
ghost use Rattle.law_runs.specs.Awake.{IsAwake};
ghost use Rattle.byte_pipe.specs.PipeState.{PipeState};
ghost use Rattle.kernel_model.specs.Pipes.{pipe_of};
ghost use Rattle.law_kernel.specs.Ends.{read_end_open, reads_pipe, write_end_open, writes_pipe};
ghost use Rattle.law_kernel.specs.Held.{IsHeld};
ghost use Rattle.law_kernel.specs.Sleeping.{AllWait, IsFamily};
ghost use Rattle.law_kernel.specs.Flow.{put_by, taken_by, all_moved};
ghost use Rattle.law_kernel.specs.Asking.{AllAsk};
ghost use Rattle.law_kernel.specs.Limits.{IsWithin};

use kernel_events::Kernel;
use sh_machine::{Naming, User};
use std::alloc::Allocator;
use user_calls::Machine;

/// No wake-up is lost: a process sleeps only while what it waits for is not there. One that waits for bytes of a pipe: the pipe
/// is empty, and its write end is open. For room in a pipe: it holds 512 bytes, and its read end is open. For children: it has
/// one, and none that is a zombie.
pub fn no_wake_up_is_lost<M: Machine, A: Allocator>(kernel: &Kernel<M, A>)
    ensures { AllWait kernel.now.now.table kernel.now.now.pipes }
{
    kernel.is_booted();
    kernel.replays();
}

/// A process that sleeps makes a call that may sleep there: a read from that very pipe, a write to that very pipe of which some
/// bytes are left, or a wait.
pub fn whoever_sleeps_asks_for_it<M: Machine, A: Allocator>(kernel: &Kernel<M, A>)
    ensures { AllAsk M.call_of kernel.now.now }
{
    kernel.is_booted();
    kernel.replays();
}

/// Init lives and has no parent, no process is its own child, and every parent lives.
pub fn every_parent_lives<M: Machine, A: Allocator>(kernel: &Kernel<M, A>)
    ensures { IsFamily kernel.now.now.table }
{
    kernel.is_booted();
    kernel.replays();
}

/// An end of a pipe is open exactly while some descriptor of some process holds it.
pub fn an_end_is_open_while_it_is_held<M: Machine, A: Allocator>(kernel: &Kernel<M, A>)
    ensures reader { (id : ℕ) → (read_end_open (pipe_of kernel.now.now.pipes id) ≡ true) ↔ IsHeld kernel.now.now (reads_pipe id) }
    ensures writer { (id : ℕ) → (write_end_open (pipe_of kernel.now.now.pipes id) ≡ true) ↔ IsHeld kernel.now.now (writes_pipe id) }
{
    kernel.is_booted();
    kernel.replays();
}

/// What was put into a pipe is what was taken from it, in order, and then what it holds.
pub fn a_pipe_loses_nothing<M: Machine, A: Allocator>(kernel: &Kernel<M, A>)
    ensures { (id : ℕ) (p : PipeState) → pipe_of kernel.now.now.pipes id ≡ Some p
        → all_moved M.call_of M.next_of (put_by id) (Some kernel.now.boot) kernel.now.schedule kernel.now.notes ≡ all_moved M.call_of M.next_of (taken_by id) (Some kernel.now.boot) kernel.now.schedule kernel.now.notes ++ p.bytes }
{
    kernel.is_booted();
    kernel.replays();
}

/// There are never more than 64 processes, 100 open files and 16 descriptors a process, and no pipe holds more than 512
/// bytes.
pub fn it_is_within_its_limits<M: Machine, A: Allocator>(kernel: &Kernel<M, A>)
    ensures { IsWithin kernel.now.now }
{
    kernel.is_booted();
    kernel.replays();
}

/// In a run of a script without `&` in which nothing was full, some process is Runnable or Running.
pub fn it_is_never_stuck<'t, B: Allocator, N: Naming, A: Allocator>(
    kernel: &Kernel<User<'t, B, N>, A>,
)
    ensures { IsPlainRun kernel.now → IsAwake kernel.now.now.table }
{
    kernel.is_booted();
    kernel.replays();
}

/// So where nothing is Runnable, some process is Running.
pub fn nothing_is_runnable_only_while_one_runs_elsewhere<'t, B: Allocator, N: Naming, A: Allocator>(
    kernel: &Kernel<User<'t, B, N>, A>,
)
    ensures { IsPlainRun kernel.now → All (λ slot. is_runnable slot ≡ false) kernel.now.now.table → 0 < count_by is_running kernel.now.now.table }
{
    it_is_never_stuck(kernel);
}

/// In a run of a clear script in which nothing was full, more events than `most_events` have happened only once no process
/// but init is there.
pub fn it_is_finished_after_so_many_events<'t, B: Allocator, N: Naming, A: Allocator>(
    kernel: &Kernel<User<'t, B, N>, A>,
)
    ensures { (plain : IsPlainRun kernel.now) → IsClearScript plain.lines → most_events plain.lines plain.input (files plain.files) < length kernel.now.schedule → IsFinished kernel.now.now }
{
    kernel.is_booted();
    kernel.replays();
}
