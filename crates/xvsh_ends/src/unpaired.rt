//! How an exploration ends of which nothing is shown.
ghost use Rattle.std.specs.Prelude.{ℕ, List, Option};
ghost use Rattle.xvsh_read.specs.Path.{Path};
ghost use Rattle.xvsh_explores.specs.Explores.{IsExploringFault};
ghost use Rattle.xvsh_ends.specs.Ends.{Asked, IsDue, IsPairStatus, asks_paired};
ghost use Rattle.xvsh_ends.specs.Requests.{explore_plainly_asked};
ghost use Rattle.xvsh_read.specs.Status.{status_code};

use crate::ending::{Ending, report_fault, report_made};
use result_json::{FaultPlace, FaultValues, fault_result, fault_result_of};
use std::alloc::{AllocError, Global};
use xvsh_explores::{ExploreRequest, ExploringFault};
use xvsh_read::Status;

// The number and the name of the fault that an outcome isn't there.
const NO_OUTCOME: (u64, &str) = (16, "NoOutcome");

// Reports a word that names no two outcomes, or one that isn't there.
fn report_unpaired(alloc: Global, fault: ExploringFault<'_>, status: Status) -> Ending
    ensures { (input : Option (List ℕ)) (file : Path → Option (List ℕ)) (what : Asked) (word : Path) → IsPairStatus (status_code status) → IsDue input file (asks_paired what word) result }
{
    report_made(alloc, format!(in alloc; "xvsh: {fault}\n"), status)
}

/// The report of a fault of an exploration.
pub(crate) fn report_exploring(
    alloc: Global,
    request: &ExploreRequest<'_>,
    fault: ExploringFault<'_>,
) -> Ending
    ensures { (input : Option (List ℕ)) (file : Path → Option (List ℕ)) → IsExploringFault input file request.now.source.script.now request.now.source.files.now request.now.pair fault.entry → IsDue input file (explore_plainly_asked request.now) result }
{
    match fault {
        ExploringFault::Common(common) => report_fault(alloc, common),
        ExploringFault::NoPair(_) => report_unpaired(alloc, fault, Status::Misused),
        ExploringFault::NoOutcome(_, _) => report_unpaired(alloc, fault, Status::Failed),
    }
}

/// The same as an object of JSON. A word that names no two outcomes is in no object.
pub(crate) fn exploring_fault_result(
    alloc: Global,
    fault: ExploringFault<'_>,
) -> Result<Vec<u8>, AllocError> {
    if let ExploringFault::Common(common) = fault {
        return fault_result(alloc, "explore", common);
    }
    let (number, name) = NO_OUTCOME;
    let text = format!(in alloc; "{fault}")?;
    let values = FaultValues {
        number,
        name,
        text: text.as_bytes(),
        place: FaultPlace::NOWHERE,
    };
    fault_result_of(alloc, "explore", &values, Status::Failed)
}
