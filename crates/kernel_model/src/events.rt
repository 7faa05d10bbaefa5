//! What happens in a kernel, and what it can be full of.

/// What happens in one critical section of a kernel: the first number is a hart, the second the slot of a process, both
/// counted from 0 (own).
#[derive(Clone, Copy, Debug, PartialEq, Eq)]
pub enum Event {
    /// The Runnable process begins to run on the hart (xv6's `scheduler`).
    Dispatch(u8, u32),
    /// The system call of the process, which runs on the hart, is carried out, or tried once more if it slept (xv6's
    /// `usertrap`).
    Trap(u8, u32),
}

/// What had no room at the first call of a run that was refused because something was full (own).
#[derive(Clone, Copy, Debug, PartialEq, Eq)]
pub enum Full {
    /// No slot for a process is free.
    Procs,
    /// Too few open-file entries are free: one is needed, and two for a pipe.
    Open,
    /// Too few descriptors of the process are free: one is needed, and two for a pipe.
    Fds,
    /// There are 200 files.
    Files,
    /// A file would have more than 274,432 bytes.
    Size,
    /// The allocator refused memory.
    Memory,
}

/// Whether memory was refused to a call that wanted some.
#[derive(Clone, Copy, Debug, PartialEq, Eq)]
pub enum Memory {
    /// There was enough, or the call wanted none.
    Found,
    /// Some was refused.
    Refused,
}
