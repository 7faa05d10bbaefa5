//! Prints what was found: as one object of JSON, if one is requested, or as a text.
ghost use Rattle.std.specs.Prelude.{◌≡◌, [], false, IfOk};
ghost use Rattle.mem_files.specs.Name.{Bytes};
ghost use Rattle.xvsh_read.specs.Status.{fault_told, status_of, status_code};
ghost use Rattle.xvsh_ends.specs.Printed.{IsPrinted};

use crate::ending::{Ending, report_fault};
use crate::values::print_made;
use result_json::fault_result;
use std::alloc::{AllocError, Global};
use xvsh_read::{Fault, Status};

/// Prints what was made of values: an object if one is requested, or a text.
pub(crate) fn print_as(
    alloc: Global,
    is_json: bool,
    made: Result<Vec<u8>, AllocError>,
    status: Status,
) -> Ending
    ensures { (text : Bytes) → (is_json ≡ false → IfOk made (λ found. found.items ≡ text)) → IsPrinted is_json text [] (status_code status) result }
{
    print_made(alloc, made, status)
}

/// Reports a fault of this command, in an object if one is requested.
pub(crate) fn report_as(alloc: Global, command: &str, is_json: bool, fault: Fault<'_>) -> Ending
    ensures { IsPrinted is_json [] (fault_told fault.entry) (status_of fault.entry) result }
{
    if is_json {
        let status = fault.status();
        print_made(alloc, fault_result(alloc, command, fault), status)
    } else {
        report_fault(alloc, fault)
    }
}
