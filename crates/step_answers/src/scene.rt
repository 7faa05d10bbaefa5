//! What a session begins with.

use kernel_events::Kernel;
use mem_files::Files;
use run_trace::Tracer;
use script_load::Script;
use std::alloc::{AllocError, Global};
use user_calls::Machine;

/// What a session begins with: both first processes, and the script, the standard input and the files.
#[derive(Drop)]
pub struct Scene<'t, M: Machine> {
    pub init: M,
    pub shell: M,
    pub script: &'t Script<Global>,
    pub stdin: &'t [u8],
    pub files: &'t Files<Global>,
}

impl<'t, M: Machine> Scene<'t, M> {
    // A kernel at its start, that is followed event by event.
    pub(crate) fn tracer(&self, alloc: Global) -> Result<Tracer<M, Global>, AllocError> {
        let kernel = Kernel::boot(
            alloc,
            self.init.twin(),
            self.shell.twin(),
            self.stdin,
            self.files,
        )?;
        Ok(Tracer::new(kernel))
    }
}
