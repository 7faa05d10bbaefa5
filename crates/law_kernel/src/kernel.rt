//! Laws of every run of a kernel from its start: each function's contract is the law, and its body is empty.
//!
//! The programs are any machines. A run is any list of events that can happen, with memory refused or not at each; it need
//! not be finished.

ghost use Rattle.std.specs.Prelude.{◌≡◌, ◌≢◌, ◌≤◌, ◌↔◌, ◌++◌, ℕ, Some, None, true, false, length, replicate};
ghost use Rattle.mem_files.specs.Name.{Bytes};
ghost use Rattle.mem_files.specs.Listing.{AreFiles};
ghost use Rattle.byte_pipe.specs.PipeState.{PipeState};
ghost use Rattle.byte_pipe.specs.Limits.{pipe_size};
ghost use Rattle.fd_table.specs.declared.descriptors.TheConstants.{DESCRIPTORS};
ghost use Rattle.fd_table.specs.Entries.{IsInUse, count_of, entry_at};
ghost use Rattle.fd_table.specs.Holders.{holders};
ghost use Rattle.proc_table.specs.Slots.{at, is_child_of};
ghost use Rattle.kernel_model.specs.KernelRun.{KernelRun};
ghost use Rattle.kernel_model.specs.KernelState.{KernelState, fds_at};
ghost use Rattle.kernel_model.specs.Pipes.{pipe_of};
ghost use Rattle.kernel_model.specs.Sound.{IsSound, tables};
ghost use Rattle.law_kernel.specs.Ends.{EndsAgree, read_end_open, reads_pipe, write_end_open, writes_pipe};
ghost use Rattle.law_kernel.specs.Held.{HasHolder, IsHeld};
ghost use Rattle.law_kernel.specs.Sleeping.{AllWait, Lives};
ghost use Rattle.law_kernel.specs.Flow.{moved_in, put_by, taken_by};
ghost use Rattle.law_kernel.specs.Asking.{AllAsk};
ghost use Rattle.law_kernel.specs.Limits.{IsWithin};
ghost use Rattle.law_kernel.specs.Exiting.{HasOtherHolder, IsExit, IsHeldByOther};

use user_calls::Machine;

/// No wake-up is lost: a process sleeps only while what it waits for is not there. One that waits for bytes of a pipe: the pipe
/// is empty, and its write end is open. For room in a pipe: it holds 512 bytes, and its read end is open. For children: it has
/// one, and none that is a zombie.
pub fn no_wake_up_is_lost<M: Machine>()
    ensures { (r : KernelRun M.call_of M.next_of) → AllWait r.last.table r.last.pipes }
{}

/// Every parent lives: it is there, and no zombie. Init lives, and has no parent; no process is its own child.
pub fn every_parent_lives<M: Machine>()
    ensures parents { (r : KernelRun M.call_of M.next_of) (child parent : ℕ)
        → is_child_of parent (at r.last.table child) ≡ true → Lives (at r.last.table parent) }
    ensures init { (r : KernelRun M.call_of M.next_of) → Lives (at r.last.table 0) }
    ensures eldest { (r : KernelRun M.call_of M.next_of) (pid : ℕ)
        → is_child_of pid (at r.last.table 0) ≡ false }
    ensures own { (r : KernelRun M.call_of M.next_of) (pid : ℕ)
        → is_child_of pid (at r.last.table pid) ≡ false }
{}

/// No pipe ever holds more than 512 bytes.
pub fn a_pipe_never_holds_too_much<M: Machine>()
    ensures { (r : KernelRun M.call_of M.next_of) (id : ℕ) (p : PipeState)
        → pipe_of r.last.pipes id ≡ Some p → length p.bytes ≤ pipe_size }
{}

/// An end of a pipe is open exactly while one entry has it open, and no entry has a closed end open. No two pipes have
/// one name.
pub fn an_end_is_open_while_an_entry_has_it<M: Machine>()
    ensures { (r : KernelRun M.call_of M.next_of) → EndsAgree r.last.entries r.last.pipes }
{}

/// Begun with a valid list of files, a kernel stays sound: each entry counts the descriptors that hold it, a zombie
/// holds nothing, and there are 64 slots with 16 descriptors each. Its files stay a valid list.
pub fn every_run_is_sound<M: Machine>()
    ensures sound { (r : KernelRun M.call_of M.next_of) → AreFiles r.files → IsSound r.last.table r.last.entries }
    ensures files { (r : KernelRun M.call_of M.next_of) → AreFiles r.files → AreFiles r.last.files }
{}

/// The count of holders of an open-file entry is the number of descriptors of all processes that hold it, and the entry
/// is open exactly while some descriptor holds it.
pub fn an_entry_is_open_while_a_descriptor_holds_it<M: Machine>()
    ensures count { (r : KernelRun M.call_of M.next_of) (e : ℕ)
        → AreFiles r.files → count_of (entry_at r.last.entries e) ≡ holders (tables r.last.table) e }
    ensures used { (r : KernelRun M.call_of M.next_of) (e : ℕ)
        → AreFiles r.files → IsInUse r.last.entries e ↔ HasHolder r.last e }
{}

/// A process that exits, other than init, closes every descriptor, and changes no other process's. After it an entry is
/// open exactly while another process holds it, and so is an end of a pipe: what its descriptors alone held is closed.
pub fn an_exit_closes_every_descriptor<M: Machine>()
    ensures none { (r : KernelRun M.call_of M.next_of) (pid : ℕ) (now : KernelState M.State)
        → AreFiles r.files → IsExit M.call_of M.next_of r.last pid now → fds_at now pid ≡ replicate DESCRIPTORS None }
    ensures others { (r : KernelRun M.call_of M.next_of) (pid : ℕ) (now : KernelState M.State) (other : ℕ)
        → AreFiles r.files → IsExit M.call_of M.next_of r.last pid now → other ≢ pid → fds_at now other ≡ fds_at r.last other }
    ensures entries { (r : KernelRun M.call_of M.next_of) (pid : ℕ) (now : KernelState M.State) (e : ℕ)
        → AreFiles r.files → IsExit M.call_of M.next_of r.last pid now → IsInUse now.entries e ↔ HasOtherHolder r.last pid e }
    ensures readers { (r : KernelRun M.call_of M.next_of) (pid : ℕ) (now : KernelState M.State) (id : ℕ)
        → AreFiles r.files → IsExit M.call_of M.next_of r.last pid now
        → (read_end_open (pipe_of now.pipes id) ≡ true) ↔ IsHeldByOther r.last pid (reads_pipe id) }
    ensures writers { (r : KernelRun M.call_of M.next_of) (pid : ℕ) (now : KernelState M.State) (id : ℕ)
        → AreFiles r.files → IsExit M.call_of M.next_of r.last pid now
        → (write_end_open (pipe_of now.pipes id) ≡ true) ↔ IsHeldByOther r.last pid (writes_pipe id) }
{}

/// An end of a pipe is open exactly while some descriptor of some process holds it.
pub fn an_end_is_open_while_it_is_held<M: Machine>()
    ensures reader { (r : KernelRun M.call_of M.next_of) (id : ℕ)
        → AreFiles r.files → (read_end_open (pipe_of r.last.pipes id) ≡ true) ↔ IsHeld r.last (reads_pipe id) }
    ensures writer { (r : KernelRun M.call_of M.next_of) (id : ℕ)
        → AreFiles r.files → (write_end_open (pipe_of r.last.pipes id) ≡ true) ↔ IsHeld r.last (writes_pipe id) }
{}

/// What was put into a pipe is what was taken from it, in order, and then what it holds. A pipe that is given up may lose
/// what it held; even so what was taken from it is the beginning of what was put.
pub fn a_pipe_loses_nothing<M: Machine>()
    ensures holds { (r : KernelRun M.call_of M.next_of) (id : ℕ) (p : PipeState)
        → pipe_of r.last.pipes id ≡ Some p
        → moved_in M.call_of M.next_of (put_by id) r ≡ moved_in M.call_of M.next_of (taken_by id) r ++ p.bytes }
    ensures order { (r : KernelRun M.call_of M.next_of) (id : ℕ)
        → (rest : Bytes) × (moved_in M.call_of M.next_of (put_by id) r ≡ moved_in M.call_of M.next_of (taken_by id) r ++ rest) }
{}

/// There are never more than 64 processes, 100 open files and 16 descriptors a process, and no pipe holds more than 512
/// bytes.
pub fn every_run_is_within_its_limits<M: Machine>()
    ensures { (r : KernelRun M.call_of M.next_of) → AreFiles r.files → IsWithin r.last }
{}

/// A process that sleeps makes a call that may sleep there, which it makes again once it runs. On a pipe's bytes it is a read
/// through a descriptor that holds the read end of that pipe; on a pipe's room a write through one that holds the write
/// end, of which some bytes are left; on children a wait for its own.
pub fn whoever_sleeps_asks_for_it<M: Machine>()
    ensures { (r : KernelRun M.call_of M.next_of) → AreFiles r.files → AllAsk M.call_of r.last }
{}
