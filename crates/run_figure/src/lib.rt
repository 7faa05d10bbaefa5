//! The figure of a run as plain data: a lane for each process, a bar for each sleep, and a band for each pipe, from the
//! events of a trace.
#![tactic(auto)]

mod bytes;
mod figure;

pub use bytes::common_bytes;
pub use figure::{Band, Bar, Lane, bands, bars, common_events, first_stranger, lanes};
