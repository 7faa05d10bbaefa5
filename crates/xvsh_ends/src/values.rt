//! How commands end that print one object of JSON.
ghost use Rattle.std.specs.Prelude.{◌≡◌, MatchResult};
ghost use Rattle.xvsh_read.specs.Status.{fault_told, status_code};
ghost use Rattle.xvsh_read.specs.Writing.{out_text};
ghost use Rattle.xvsh_ends.specs.Ends.{PrintsAlone, Tells, told_text};

use crate::ending::{Ending, Line, no_output, report_no_memory};
use mem_files::Files;
use sh_lexer::Bytes;
use std::alloc::{AllocError, Global};
use xvsh_read::{Fault, Output, Status};

// Prints this text and nothing else, with this status.
fn print_alone(alloc: Global, text: Vec<u8>, status: Status) -> Ending
    ensures { PrintsAlone text.items (status_code status) result }
{
    Ending {
        output: Output {
            out: Bytes::from_vec(text),
            ..no_output(alloc)
        },
        line: Line::Fixed(""),
        status,
        recording: None,
        left: None,
        hint: "",
        bad: Vec::new(alloc),
        dead: Vec::new(alloc),
    }
}

// Prints an object that was made, with this status, or reports that memory was refused for it.
pub(crate) fn print_made(alloc: Global, made: Result<Vec<u8>, AllocError>, status: Status) -> Ending
    ensures { MatchResult made (λ text. PrintsAlone text.items (status_code status) result) (λ _. Tells (fault_told Fault.Memory) 4 result) }
{
    match made {
        Ok(text) => print_alone(alloc, text, status),
        Err(_) => report_no_memory(alloc),
    }
}

// The same ending, with the files that a run leaves.
pub(crate) fn leaving(ending: Ending, files: Files<Global>) -> Ending
    ensures out { out_text result.output ≡ out_text ending.output }
    ensures told { told_text result ≡ told_text ending }
    ensures status { result.status ≡ ending.status }
{
    Ending {
        left: Some(files),
        ..ending
    }
}
