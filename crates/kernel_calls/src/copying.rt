//! A state that becomes equal to another.

ghost use Rattle.std.specs.Prelude.{◌≡◌, OnOk};

use crate::State;
use crate::unread::copy_bytes;
use std::alloc::{AllocError, Allocator};
use user_calls::Machine;

impl<M: Machine, A: Allocator + Copy> State<M, A> {
    /// Becomes equal to the other state, in the memory that it has where that is enough (own).
    ///
    /// `AllocError` where memory is refused; what the state then holds isn't said.
    pub fn copy_from(&mut self, other: &Self) -> Result<(), AllocError>
        ensures { OnOk result (self.new ≡ other.now) }
    {
        self.pipes.copy_from(&other.pipes)?;
        if !self.files.same(&other.files) {
            self.copy_files(other)?;
        }
        self.input.copy_from(&other.input)?;
        copy_bytes(&mut self.out, &other.out)?;
        copy_bytes(&mut self.diag, &other.diag)?;
        self.procs.copy_from(&other.procs);
        self.entries.copy_from(&other.entries);
        self.events = other.events;
        self.full = other.full;
        Ok(())
    }
    // The files become equal to those of the other state; all else stays.
    fn copy_files(&mut self, other: &Self) -> Result<(), AllocError>
        ensures { OnOk result (self.new ≡ record self.old { files = other.now.files }) }
    {
        let Ok(files) = other.files.copy(*self.out.allocator()) else {
            return Err(AllocError);
        };
        self.files = files;
        Ok(())
    }
}
