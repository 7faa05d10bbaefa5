//! Traces as plain data, and the reader of the lines that `run --trace` writes.
#![tactic(auto)]

mod events;
mod fault;
mod fields;
mod keeping;
mod lines;
mod pieces;
mod trace;

pub use fault::TraceFault;
pub use lines::read_trace;
pub use trace::{
    Call, Channel, Child, Doing, End, Event, FileState, Full, Head, Mode, Node, Object, Part,
    PipeState, Process, Reply, State, Trace, Trap,
};
