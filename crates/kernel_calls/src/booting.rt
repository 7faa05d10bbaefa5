//! The state at the start.

ghost use Rattle.std.specs.Prelude.{◌≡◌, IfOk, IfSome, IsSome};
ghost use Rattle.proc_table.specs.Slots.{at};
ghost use Rattle.kernel_model.specs.Sound.{IsSound};
ghost use Rattle.kernel_model.specs.Boot.{boot_kernel, closed_kernel};

use crate::State;
use crate::pipes::Pipes;
use crate::unread::Unread;
use fd_table::{Object, OpenFiles};
use mem_files::Files;
use proc_table::{Pid, Procs};
use std::alloc::{AllocError, Allocator};
use user_calls::Machine;

impl<M: Machine, A: Allocator> State<M, A> {
    ghost use Rattle.kernel_model.specs.Descriptors.{with_open};

    // Opens the object for a process that may not run.
    fn give(&mut self, pid: Pid, object: Object)
        requires { IsSome (at self.old.table pid) }
        ensures after { self.new ≡ with_open self.old pid object }
        ensures used { IsSome (at self.new.table pid) }
    {
        if let Ok(entry) = self.entries.add(object) {
            let _ = self.procs.fds_mut(pid).install(entry);
        }
    }
}

impl<M: Machine, A: Allocator + Copy> State<M, A> {
    /// The state at the start: init and the top shell, with this standard input and these files (`userinit`; that there is a
    /// shell, with its three descriptors, is own).
    ///
    /// `AllocError` where memory for the table, the input or the files is refused.
    pub fn boot<B: Allocator>(
        alloc: A,
        init: M,
        shell: M,
        stdin: &[u8],
        files: &Files<B>,
    ) -> Result<Self, AllocError>
        ensures { IfOk result (λ state. state ≡ boot_kernel (M.view init) (M.view shell) stdin.now files.now) }
    {
        let mut state = State::closed(alloc, init, shell, stdin, files)?;
        state.give(Pid::shell(), Object::Input);
        state.give(Pid::shell(), Object::Out);
        state.give(Pid::shell(), Object::Diag);
        Ok(state)
    }

    // Nothing is open.
    fn closed<B: Allocator>(
        alloc: A,
        init: M,
        shell: M,
        stdin: &[u8],
        files: &Files<B>,
    ) -> Result<Self, AllocError>
        ensures { IfOk result (λ state. state ≡ closed_kernel (M.view init) (M.view shell) stdin.now files.now) }
    {
        let procs = Procs::new(alloc, init, shell)?;
        let input = Vec::from_slice(alloc, stdin)?;
        let Ok(files) = files.copy(alloc) else {
            return Err(AllocError);
        };
        Ok(State {
            procs,
            entries: OpenFiles::new(),
            pipes: Pipes::new(alloc),
            files,
            input: Unread::from_vec(input),
            out: Vec::new(alloc),
            diag: Vec::new(alloc),
            events: 0,
            full: None,
        })
    }
}
