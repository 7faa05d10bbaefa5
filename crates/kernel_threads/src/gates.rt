//! What harts pass on their way to user code.

use proc_table::Pid;
use std::sync::Wait;

/// Is passed by each hart between a dispatch and the user code of the process, outside the lock. A test can hold a hart
/// there.
pub trait Gate {
    /// Whether every process passes at once, whenever it comes: then a hart need not leave the kernel to pass (own).
    fn is_open(&self) -> bool {
        false
    }

    /// The hart is about to run the process.
    fn enter<R: Wait>(&self, rt: &R, hart: u8, pid: Pid);
}

/// Lets every process pass at once.
#[derive(Clone, Copy, Debug)]
pub struct OpenGate;

impl Gate for OpenGate {
    fn is_open(&self) -> bool {
        true
    }

    fn enter<R: Wait>(&self, _rt: &R, _hart: u8, _pid: Pid) {}
}
