//! The kernel.

ghost use Rattle.std.specs.Prelude.{◌≡◌, ◌<◌, ◌≤◌, ◌+◌, IsTrue, ◌↔◌, false, true, IfOk, OnOk, OnErr, IsErr, IsOk, IfSome, None, Some, Ok, All, if◌then◌else◌, ◌*◌, is_some, length, position, count_by};
ghost use Rattle.std.specs.Bool.{OnFalse, OnTrue};
ghost use Rattle.proc_table.specs.Slots.{at, is_running, is_running_on, is_runnable};
ghost use Rattle.proc_table.specs.Calls.{CanDispatch, with_status};
ghost use Rattle.proc_table.specs.declared.states.Status.TheVariants.{Running};
ghost use Rattle.proc_table.specs.declared.pid.TheConstants.{PROCS};
ghost use Rattle.proc_table.specs.declared.table.TheConstants.{HARTS};
ghost use Rattle.kernel_model.specs.Events.{IsFinished};
ghost use Rattle.kernel_events.specs.Harts.{AreCounts};

use crate::log::Log;
use crate::report::{Report, Schedule, count_of_hart};
use kernel_calls::{State, Task, trap};
use kernel_model::{Event, Full, Memory};
use mem_files::Files;
use mem_files::laws::are_files;
use proc_table::Pid;
use std::alloc::{AllocError, Allocator};
use std::marker::Model;
use std::snapshot::Snapshot;
use user_calls::{Call, CallSlot, Machine, Ran};

/// The trap is not one that the kernel waits for.
#[derive(Debug, Drop)]
pub struct Stranger;

/// A kernel, which knows that its state is the one that its schedule leads to.
///
/// Contracts see the state that it was booted with, the one that it is in, and the schedule between the two, with a note
/// beside each event: whether memory was refused.
#[derive(Drop)]
pub struct Kernel<M: Machine, A: Allocator> {
    pub(crate) state: State<M, A>,
    pub(crate) log: Log<A>,
    boot: Snapshot<State<M, A>>,
    // The call that is carried out, or was last.
    call: CallSlot,
}

impl<M: Machine, A: Allocator> Model for Kernel<M, A> {
    ghost use Rattle.kernel_model.specs.History.{History, IsKept};

    ghost Value = { History M.State };

    ghost view = { λ k. record { boot = k.boot.value; now = k.state; schedule = k.log.events; notes = k.log.notes } };

    ghost invariant = { λ k. IsKept M.call_of M.next_of k.boot.value k.state k.log };
}

impl<M: Machine, A: Allocator> Kernel<M, A> {
    ghost use Rattle.kernel_model.specs.Booted.{IsBooted};
    ghost use Rattle.kernel_model.specs.Events.{is_dispatch, run};
    ghost use Rattle.kernel_model.specs.History.{GoesOn, IsTask};
    ghost use Rattle.kernel_model.specs.declared.events.Event.TheVariants.{Dispatch};

    /// Some Runnable process begins to run on the hart, which runs nothing; `None` where none is Runnable.
    ///
    /// First the schedule gets room for this event and for the trap of each running process. `AllocError` where that is
    /// refused, and only where a process is Runnable; nothing changes then.
    pub fn dispatch(&mut self, hart: u8) -> Result<Option<Task<M>>, AllocError>
        requires hart { hart < HARTS }
        requires idle { All (λ slot. is_running_on hart slot ≡ false) self.old.now.table }
        ensures none { result ≡ Ok None → All (λ slot. is_runnable slot ≡ false) self.old.now.table }
        ensures same { result ≡ Ok None → self.new ≡ self.old }
        ensures err { OnErr result (self.new ≡ self.old) }
        ensures could { IsErr result → 0 < count_by is_runnable self.old.now.table }
        ensures event { IfOk result (λ found. IfSome found (λ task. GoesOn M.call_of M.next_of self.old (Dispatch hart task.pid) self.new)) }
        ensures task { IfOk result (λ found. IfSome found (λ task. IsTask (at self.old.now.table task.pid) (M.view task.machine) task.reply)) }
    {
        match self.dispatch_next(hart)? {
            Some(pid) => Ok(Some(self.task(pid))),
            None => Ok(None),
        }
    }

    /// `dispatch` that returns the process alone; `task` returns what its hart needs.
    pub fn dispatch_next(&mut self, hart: u8) -> Result<Option<Pid>, AllocError>
        requires hart { hart < HARTS }
        requires idle { All (λ slot. is_running_on hart slot ≡ false) self.old.now.table }
        ensures none { result ≡ Ok None → All (λ slot. is_runnable slot ≡ false) self.old.now.table }
        ensures same { result ≡ Ok None → self.new ≡ self.old }
        ensures err { OnErr result (self.new ≡ self.old) }
        ensures could { IsErr result → 0 < count_by is_runnable self.old.now.table }
        ensures event { IfOk result (λ found. IfSome found (λ pid. GoesOn M.call_of M.next_of self.old (Dispatch hart pid) self.new)) }
        ensures runs { IfOk result (λ found. IfSome found (λ pid. is_running_on hart (at self.new.now.table pid) ≡ true)) }
        ensures slot { IfOk result (λ found. IfSome found (λ pid. at self.new.now.table pid ≡ with_status (Running hart) (at self.old.now.table pid))) }
        ensures running { IfOk result (λ found. count_by is_running self.new.now.table ≡ count_by is_running self.old.now.table + (if is_some found then 1 else 0)) }
    {
        if self.state.runnable() == 0 {
            return Ok(None);
        }
        self.log.reserve()?;
        self.log.fits();
        let Some(pid) = self.state.dispatch(hart) else {
            return Ok(None);
        };
        self.log
            .write(Event::Dispatch(hart, number_of(pid)), Memory::Found);
        Ok(Some(pid))
    }

    /// What a hart needs to run the process, which runs.
    pub fn task(&self, pid: Pid) -> Task<M>
        requires { is_running (at self.now.now.table pid) ≡ true }
        ensures pid { result.pid ≡ pid }
        ensures task { IsTask (at self.now.now.table pid) (M.view result.machine) result.reply }
    {
        self.state.task(pid)
    }

    /// The process in slot `pid` begins to run on the hart; `None`, with nothing changed, where it can't: where there is
    /// no such hart, where that runs something, or where `pid` isn't the number of a Runnable process's slot.
    ///
    /// `AllocError` as with `dispatch`, and only where the process could begin.
    pub fn dispatch_pid(&mut self, hart: u8, pid: usize) -> Result<Option<Task<M>>, AllocError>
        ensures none { result ≡ Ok None → CanDispatch self.old.now.table hart pid → ⊥ }
        ensures same { result ≡ Ok None → self.new ≡ self.old }
        ensures err { OnErr result (self.new ≡ self.old) }
        ensures could { IsErr result → CanDispatch self.old.now.table hart pid }
        ensures event { IfOk result (λ found. IfSome found (λ task. GoesOn M.call_of M.next_of self.old (Dispatch hart pid) self.new)) }
        ensures task { IfOk result (λ found. IfSome found (λ task. (task.pid ≡ pid) × IsTask (at self.old.now.table pid) (M.view task.machine) task.reply)) }
    {
        match self.begin(hart, pid)? {
            Some(slot) => Ok(Some(self.task(slot))),
            None => Ok(None),
        }
    }

    // The process in slot `pid` begins to run on the hart, if it can.
    pub(crate) fn begin(&mut self, hart: u8, pid: usize) -> Result<Option<Pid>, AllocError>
        ensures can { IfOk result (λ found. IsTrue (is_some found) ↔ CanDispatch self.old.now.table hart pid) }
        ensures same { result ≡ Ok None → self.new ≡ self.old }
        ensures err { OnErr result (self.new ≡ self.old) }
        ensures could { IsErr result → CanDispatch self.old.now.table hart pid }
        ensures pid { IfOk result (λ found. IfSome found (λ slot. slot ≡ pid)) }
        ensures event { IfOk result (λ found. IfSome found (λ slot. GoesOn M.call_of M.next_of self.old (Dispatch hart pid) self.new)) }
        ensures slot { IfOk result (λ found. IfSome found (λ slot. at self.new.now.table pid ≡ with_status (Running hart) (at self.old.now.table pid))) }
        ensures runs { IfOk result (λ found. IfSome found (λ slot. is_running_on hart (at self.new.now.table pid) ≡ true)) }
        ensures running { IfOk result (λ found. count_by is_running self.new.now.table ≡ count_by is_running self.old.now.table + (if is_some found then 1 else 0)) }
    {
        if !self.state.can_dispatch(hart, pid) {
            return Ok(None);
        }
        self.log.reserve()?;
        self.log.fits();
        let (true, Some(slot)) = (self.state.dispatch_pid(hart, pid), Pid::new(pid)) else {
            return Ok(None);
        };
        self.log
            .write(Event::Dispatch(hart, number_of(slot)), Memory::Found);
        Ok(Some(slot))
    }

    /// The process that runs on the hart, if any.
    pub fn running_on(&self, hart: u8) -> Option<Pid>
        ensures { result ≡ position (is_running_on hart) self.now.now.table }
    {
        self.state.running_on(hart)
    }

    /// Whether the hart runs nothing: what `dispatch` asks.
    pub fn is_idle(&self, hart: u8) -> bool
        ensures { IsTrue result ↔ All (λ slot. is_running_on hart slot ≡ false) self.now.now.table }
    {
        self.state.is_idle(hart)
    }

    /// How many processes are running.
    pub fn running(&self) -> usize
        ensures count { result ≡ count_by is_running self.now.now.table }
        ensures within { result ≤ PROCS }
    {
        self.state.running()
    }

    /// How many processes are Runnable.
    pub fn runnable(&self) -> usize
        ensures count { result ≡ count_by is_runnable self.now.now.table }
        ensures within { result ≤ PROCS }
    {
        self.state.runnable()
    }

    /// Whether every slot but init's is free.
    pub fn is_finished(&self) -> bool
        ensures { IsTrue result ↔ IsFinished self.now.now }
    {
        self.state.is_finished()
    }

    /// What the first refusal of the run for want of room was for.
    pub fn full(&self) -> Option<Full>
        ensures { result ≡ self.now.now.full }
    {
        self.state.full()
    }

    /// The events so far.
    pub fn schedule(&self) -> &[Event]
        ensures { result.now ≡ self.now.schedule }
    {
        self.log.events()
    }

    /// The state is the one that the schedule leads to from the boot state.
    pub fn replays(&self)
        ensures { run M.call_of M.next_of (Some self.now.boot) self.now.schedule self.now.notes ≡ Some self.now.now }
    {
        let _ = &self.log;
    }

    /// Each dispatch was followed by the trap of its process, or its process runs.
    pub fn is_paired(&self)
        ensures { length self.now.schedule + count_by is_running self.now.now.table ≡ 2 * count_by is_dispatch self.now.schedule }
    {
        let _ = &self.log;
    }

    /// The run began with a kernel at its start.
    pub fn is_booted(&self)
        ensures { IsBooted self.now.boot }
    {
        let _ = &self.log;
    }

    /// What the run leaves. Takes no memory.
    pub fn into_report(self) -> Report<A>
        ensures out { result.out.items ≡ self.now.out }
        ensures diag { result.diag.items ≡ self.now.diag }
        ensures files { result.files ≡ self.now.files }
        ensures full { result.full ≡ self.now.full }
        ensures finished { IsTrue result.finished ↔ IsFinished self.now }
        ensures schedule { result.schedule ≡ self.schedule }
        ensures by_hart { AreCounts result.by_hart self.schedule }
    {
        let finished = self.state.is_finished();
        let full = self.state.full();
        let by_hart = by_hart(self.log.events());
        let (out, diag, files) = self.state.into_parts();
        Report {
            out,
            diag,
            files,
            full,
            finished,
            schedule: Schedule::from_vec(self.log.into_events()),
            by_hart,
        }
    }
}

impl<M: Machine, A: Allocator + Copy> Kernel<M, A> {
    ghost use Rattle.kernel_model.specs.Boot.{boot_kernel};
    ghost use Rattle.kernel_model.specs.History.{GoesOn, IsOwed, Steps, booted};
    ghost use Rattle.kernel_model.specs.declared.events.Event.TheVariants.{Trap};

    /// The kernel at its start: init and the top shell, with this standard input and these files.
    ///
    /// `AllocError` where memory for the table, the input or the files is refused.
    pub fn boot<B: Allocator>(
        alloc: A,
        init: M,
        shell: M,
        stdin: &[u8],
        files: &Files<B>,
    ) -> Result<Self, AllocError>
        ensures { IfOk result (λ k. k ≡ booted (boot_kernel (M.view init) (M.view shell) stdin.now files.now)) }
    {
        are_files(files);
        let state = State::boot(alloc, init, shell, stdin, files)?;
        let boot = Snapshot::of(&state);
        let log = Log::new(alloc, alloc);
        Ok(Kernel {
            state,
            log,
            boot,
            call: CallSlot::new(),
        })
    }

    /// The call of a process that runs on the hart is carried out, given the run of the machine and the reply that its
    /// task had. A growth that is refused is answered to the process, and marked.
    ///
    /// `Stranger`, with nothing changed, where the process doesn't run on that hart, or the run is of another machine or
    /// another reply.
    pub fn trap(&mut self, hart: u8, pid: Pid, ran: Ran<M>) -> Result<(), Stranger>
        ensures owed { IsOk result ↔ IsOwed hart (at self.old.now.table pid) ran }
        ensures event { OnOk result (GoesOn M.call_of M.next_of self.old (Trap hart pid) self.new) }
        ensures err { OnErr result (self.new ≡ self.old) }
    {
        if !self.state.is_owed(hart, pid, &ran) {
            return Err(Stranger);
        }
        self.carry_out(hart, pid, Some(ran.call()));
        Ok(())
    }

    /// `trap` of a task that was run where it lies: `call` is the call that its machine made, and `after` the machine after
    /// it.
    ///
    /// `Stranger`, with nothing changed, as with `trap`.
    pub fn trap_task(
        &mut self,
        hart: u8,
        task: &Task<M>,
        call: &Call,
        after: M,
    ) -> Result<(), Stranger>
        requires call { call.now ≡ M.call_of (M.view task.now.machine) task.now.reply }
        requires after { M.view after ≡ M.next_of (M.view task.now.machine) task.now.reply }
        ensures owed { IsOk result ↔ IsOwed hart (at self.old.now.table task.now.pid) (record { before = M.view task.now.machine; reply = task.now.reply }) }
        ensures event { OnOk result (GoesOn M.call_of M.next_of self.old (Trap hart task.now.pid) self.new) }
        ensures err { OnErr result (self.new ≡ self.old) }
    {
        if !self
            .state
            .has_given(hart, task.pid, &task.machine, &task.reply)
        {
            return Err(Stranger);
        }
        self.carry_out(hart, task.pid, Some(call));
        Ok(())
    }

    // The call of the process, which runs on the hart, is carried out: it is given, or its machine is asked for it.
    pub(crate) fn carry_out(&mut self, hart: u8, pid: Pid, given: Option<&Call>)
        requires runs { is_running_on hart (at self.old.now.table pid) ≡ true }
        requires given { IfSome given (λ call. IfSome (at self.old.now.table pid) (λ p. call.now ≡ M.call_of p.machine p.reply)) }
        ensures event { GoesOn M.call_of M.next_of self.old (Trap hart pid) self.new }
        ensures running { count_by is_running self.new.now.table + 1 ≡ count_by is_running self.old.now.table }
    {
        self.log.fits();
        write_call(&self.state, pid, given, &mut self.call);
        let memory = trap(&mut self.state, pid, &self.call);
        self.log.write(Event::Trap(hart, number_of(pid)), memory);
    }

    /// A dispatch on the hart, which runs nothing, and the trap that follows it, at once: nothing is handed out, and no
    /// machine is compared. It returns whether a process was Runnable.
    ///
    /// `AllocError` as with `dispatch`.
    pub fn step(&mut self, hart: u8) -> Result<bool, AllocError>
        requires hart { hart < HARTS }
        requires idle { All (λ slot. is_running_on hart slot ≡ false) self.old.now.table }
        ensures none { result ≡ Ok false → All (λ slot. is_runnable slot ≡ false) self.old.now.table }
        ensures same { result ≡ Ok false → self.new ≡ self.old }
        ensures err { OnErr result (self.new ≡ self.old) }
        ensures could { IsErr result → 0 < count_by is_runnable self.old.now.table }
        ensures events { result ≡ Ok true → Steps M.call_of M.next_of self.old hart self.new }
        ensures running { OnOk result (count_by is_running self.new.now.table ≡ count_by is_running self.old.now.table) }
    {
        let Some(pid) = self.dispatch_next(hart)? else {
            return Ok(false);
        };
        self.carry_out(hart, pid, None);
        Ok(true)
    }

    /// `step` of the process in slot `pid`. It returns whether the process could begin to run there; where it couldn't, nothing
    /// changes.
    ///
    /// `AllocError` as with `dispatch_pid`.
    pub fn step_pid(&mut self, hart: u8, pid: usize) -> Result<bool, AllocError>
        ensures can { IfOk result (λ took. IsTrue took ↔ CanDispatch self.old.now.table hart pid) }
        ensures same { result ≡ Ok false → self.new ≡ self.old }
        ensures err { OnErr result (self.new ≡ self.old) }
        ensures could { IsErr result → CanDispatch self.old.now.table hart pid }
        ensures events { result ≡ Ok true → Steps M.call_of M.next_of self.old hart self.new }
        ensures running { OnOk result (count_by is_running self.new.now.table ≡ count_by is_running self.old.now.table) }
    {
        let found = self.begin(hart, pid)?;
        if let Some(slot) = found {
            self.carry_out(hart, slot, None);
        }
        Ok(found.is_some())
    }

    /// The call of the process in slot `pid`, as its own machine makes it, is carried out, if the process runs on the hart. It
    /// returns whether it does; where it doesn't, nothing changes.
    pub fn trap_pid(&mut self, hart: u8, pid: usize) -> bool
        ensures can { result ≡ is_running_on hart (at self.old.now.table pid) }
        ensures event { OnTrue result (GoesOn M.call_of M.next_of self.old (Trap hart pid) self.new) }
        ensures same { OnFalse result (self.new ≡ self.old) }
    {
        let Some(slot) = self.state.found_on(hart, pid) else {
            return false;
        };
        self.carry_out(hart, slot, None);
        true
    }
}

// The number of a process in an event.
fn number_of(pid: Pid) -> u32
    ensures { result ≡ pid }
{
    pid.index() as u32
}

// Writes the call of the process: the one that is given, or the one that its machine makes.
fn write_call<M: Machine, A: Allocator>(
    state: &State<M, A>,
    pid: Pid,
    given: Option<&Call>,
    call: &mut CallSlot,
)
    requires runs { is_running (at state.now.table pid) ≡ true }
    requires given { IfSome given (λ made. IfSome (at state.now.table pid) (λ p. made.now ≡ M.call_of p.machine p.reply)) }
    ensures { IfSome (at state.now.table pid) (λ p. call.new ≡ M.call_of p.machine p.reply) }
{
    match given {
        Some(made) => call.set(made),
        None => state.ask(pid, call),
    }
}

// How many of the events each hart had.
fn by_hart(events: &[Event]) -> [u64; 8]
    ensures { AreCounts result events.now }
{
    [
        count_of_hart(events, 0),
        count_of_hart(events, 1),
        count_of_hart(events, 2),
        count_of_hart(events, 3),
        count_of_hart(events, 4),
        count_of_hart(events, 5),
        count_of_hart(events, 6),
        count_of_hart(events, 7),
    ]
}
