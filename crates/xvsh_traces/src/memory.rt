//! Traces that are written into memory.

use crate::fault::TraceFault;
use crate::writing::trace_run;
use kernel_model::Event;
use std::alloc::Global;
use xvsh_read::{Start, Traces, Unwritten};

// A trace in memory, which takes no folder.
#[derive(Drop)]
struct Written {
    text: Vec<u8>,
}

impl Traces for Written {
    fn make_folder(&mut self, _path: &str) -> Result<(), Unwritten> {
        Err(Unwritten)
    }

    fn begin_trace(&mut self, _path: &str) -> Result<(), Unwritten> {
        self.text.clear();
        Ok(())
    }

    fn write_trace(&mut self, bytes: &[u8]) -> Result<(), Unwritten> {
        match self.text.extend_from_slice(bytes) {
            Ok(()) => Ok(()),
            Err(_) => Err(Unwritten),
        }
    }
}

// On how many harts these events are: the first ones, up to the last that has one.
fn harts_of(events: &[Event]) -> u8 {
    let mut harts = 1;
    for event in events {
        let (Event::Dispatch(hart, _) | Event::Trap(hart, _)) = *event;
        harts = hart.saturating_add(1).max(harts);
    }
    harts
}

/// The lines of the trace of the run of what was read by this schedule, on as many harts as it has, as `trace_run` writes them (own).
///
/// A fault of `trace_run`; of a schedule that took place before only that memory was refused.
pub fn trace_text(alloc: Global, start: &Start, schedule: &[Event]) -> Result<Vec<u8>, TraceFault> {
    let mut written = Written {
        text: Vec::new(alloc),
    };
    trace_run(alloc, &mut written, start, schedule, harts_of(schedule))?;
    Ok(written.text)
}
