//! Objects of JSON in place of what is printed.
ghost use Rattle.std.specs.Prelude.{◌≡◌, ℕ, ◌↔◌, List, [], Option, IsTrue};
ghost use Rattle.xvsh_read.specs.Path.{Path};
ghost use Rattle.xvsh_read.specs.Writing.{out_text};
ghost use Rattle.xvsh_ends.specs.Ends.{Asked, IsDue, IsObjectStatus, asks_json, told_text};
ghost use Rattle.xvsh_ends.specs.Requests.{json_asked};
ghost use Rattle.xvsh_read.specs.Status.{status_code};

use crate::ending::{Ending, Line, no_output, report_no_memory};
use mem_files::Files;
use result_json::{FaultPlace, FaultValues, fault_result_of};
use sh_lexer::Bytes;
use std::alloc::{AllocError, Global};
use xvsh_read::{Output, Status};
use xvsh_runs::Recording;

// The numbers and the names of two faults.
const MEMORY: (u64, &str) = (8, "Memory");

const UNWRITTEN: (u64, &str) = (14, "Unwritten");

// Whether an object is printed with this status.
fn is_object_status(status: Status) -> bool
    ensures { IsTrue result ↔ IsObjectStatus (status_code status) }
{
    match status {
        Status::Misused => false,
        Status::Done | Status::Failed | Status::Amiss | Status::NoRoom => true,
    }
}

// The object of a fault that has a report alone: the status, and what would have been reported. Where the status is 1 something
// can't be written, else memory was refused.
fn fault_object(
    alloc: Global,
    command: &str,
    status: Status,
    told: &[u8],
) -> Result<Vec<u8>, AllocError> {
    let line = told.strip_suffix(b"\n").unwrap_or(told);
    let (number, name) = if status == Status::Failed {
        UNWRITTEN
    } else {
        MEMORY
    };
    let values = FaultValues {
        number,
        name,
        text: line.strip_prefix(b"xvsh: ").unwrap_or(line),
        place: FaultPlace::NOWHERE,
    };
    fault_result_of(alloc, command, &values, status)
}

// Prints this object, with this status.
fn prints(alloc: Global, object: Bytes<Global>, status: Status) -> Ending
    ensures out { out_text result.output ≡ object }
    ensures told { told_text result ≡ [] }
    ensures status { result.status ≡ status }
{
    Ending {
        output: Output {
            out: object,
            ..no_output(alloc)
        },
        line: Line::Fixed(""),
        status,
        recording: None,
        left: None,
        hint: "",
        bad: Vec::new(alloc),
        dead: Vec::new(alloc),
    }
}

// What was printed, which is an object, or where nothing was, the object of the fault that was reported.
fn object_of(alloc: Global, ending: Ending, command: &str) -> Result<Bytes<Global>, AllocError> {
    if ending.output.out.as_slice().is_empty() {
        let told = ending.line.as_bytes();
        let object = fault_object(alloc, command, ending.status, told)?;
        return Ok(Bytes::from_vec(object));
    }
    Ok(ending.output.out)
}

// Prints an object, with the status of the ending.
fn objected(alloc: Global, ending: Ending, command: &str) -> Ending
    ensures { (input : Option (List ℕ)) (file : Path → Option (List ℕ)) (what : Asked) → IsObjectStatus (status_code ending.status) → IsDue input file what ending → IsDue input file (asks_json what) result }
{
    let status = ending.status;
    match object_of(alloc, ending, command) {
        Ok(object) => prints(alloc, object, status),
        Err(_) => report_no_memory(alloc),
    }
}

// What is printed of a request for one object: what was printed, which is one, or where nothing was, the object of the fault that
// was reported. Words that are no command, whose status is 2, stay as they were reported.
fn valued(alloc: Global, ending: Ending, command: &str) -> Ending
    ensures { (input : Option (List ℕ)) (file : Path → Option (List ℕ)) (what : Asked) → IsDue input file what ending → IsDue input file (asks_json what) result }
{
    if is_object_status(ending.status) {
        objected(alloc, ending, command)
    } else {
        ending
    }
}

/// The same, if an object is requested.
pub(crate) fn valued_if(alloc: Global, ending: Ending, is_json: bool, command: &str) -> Ending
    ensures { (input : Option (List ℕ)) (file : Path → Option (List ℕ)) (what : Asked) → IsDue input file what ending → IsDue input file (json_asked is_json what) result }
{
    if is_json {
        valued(alloc, ending, command)
    } else {
        ending
    }
}

// The same ending, with what makes the run once more and the files that it leaves.
fn recorded(ending: Ending, recording: Option<Recording>, left: Option<Files<Global>>) -> Ending
    ensures out { out_text result.output ≡ out_text ending.output }
    ensures told { told_text result ≡ told_text ending }
    ensures status { result.status ≡ ending.status }
{
    Ending {
        recording,
        left,
        ..ending
    }
}

// Prints an object that was made, with the status of the ending, whose run can still be made once more.
fn made_objected(alloc: Global, ending: Ending, made: Result<Vec<u8>, AllocError>) -> Ending
    ensures { (input : Option (List ℕ)) (file : Path → Option (List ℕ)) (what : Asked) → IsObjectStatus (status_code ending.status) → IsDue input file what ending → IsDue input file (asks_json what) result }
{
    match made {
        Ok(object) => {
            let printed = prints(alloc, Bytes::from_vec(object), ending.status);
            recorded(printed, ending.recording, ending.left)
        }
        Err(_) => report_no_memory(alloc),
    }
}

/// What is printed of a request for one object: the one that was made of what the ending reports, or that memory was refused for it.
/// Words that are no command, whose status is 2, stay as they were reported.
pub(crate) fn made_valued(
    alloc: Global,
    ending: Ending,
    made: Result<Vec<u8>, AllocError>,
) -> Ending
    ensures { (input : Option (List ℕ)) (file : Path → Option (List ℕ)) (what : Asked) → IsDue input file what ending → IsDue input file (asks_json what) result }
{
    if is_object_status(ending.status) {
        made_objected(alloc, ending, made)
    } else {
        ending
    }
}
