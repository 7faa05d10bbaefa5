//! Faults of runs by processes as objects of JSON.

use result_json::{FaultPlace, FaultValues, fault_result, fault_result_of};
use std::alloc::{AllocError, Global};
use xvsh_runs::ProcessFault;

// The number and the name of a fault that runs by processes alone have. Those of words that are no command line are in no object.
fn number_of(fault: ProcessFault<'_>) -> (u64, &'static str) {
    match fault {
        ProcessFault::Spent => (9, "Spent"),
        ProcessFault::NoEvent(_, _) => (10, "NoEvent"),
        ProcessFault::NotRunnable(_, _) => (11, "NotRunnable"),
        ProcessFault::NotRunning(_, _, _) => (12, "NotRunning"),
        ProcessFault::Unfinished(_) => (13, "Unfinished"),
        ProcessFault::Common(_)
        | ProcessFault::BadHarts
        | ProcessFault::BadTurns
        | ProcessFault::BadOrder(_)
        | ProcessFault::SharedInput => (0, "Usage"),
    }
}

// What it is about.
fn place_of(fault: ProcessFault<'_>) -> FaultPlace<'_> {
    let nowhere = FaultPlace::NOWHERE;
    match fault {
        ProcessFault::NoEvent(path, line) => FaultPlace {
            path: Some(path),
            line: Some(line),
            ..nowhere
        },
        ProcessFault::NotRunnable(event, pid) => FaultPlace {
            event: Some(event),
            pid: Some(pid),
            ..nowhere
        },
        ProcessFault::NotRunning(event, pid, hart) => FaultPlace {
            event: Some(event),
            pid: Some(pid),
            hart: Some(hart),
            ..nowhere
        },
        ProcessFault::Unfinished(count) => FaultPlace {
            event: Some(count),
            ..nowhere
        },
        _ => nowhere,
    }
}

/// The result of a run by processes that failed, as one object of JSON, and LF (own): that of a fault which any command meets as
/// `fault_result` says; else the fault's number, 9 to 13, its name, its text and what it is about.
///
/// `AllocError` where memory for the text is refused.
pub fn process_fault_result(
    alloc: Global,
    command: &str,
    fault: ProcessFault<'_>,
) -> Result<Vec<u8>, AllocError> {
    if let ProcessFault::Common(fault) = fault {
        return fault_result(alloc, command, fault);
    }
    let (number, name) = number_of(fault);
    let text = format!(in alloc; "{fault}")?;
    let values = FaultValues {
        number,
        name,
        text: text.as_bytes(),
        place: place_of(fault),
    };
    fault_result_of(alloc, command, &values, fault.status())
}
