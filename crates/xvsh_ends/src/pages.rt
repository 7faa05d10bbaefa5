//! How a command ends beside whose output a page is written.
ghost use Rattle.std.specs.Prelude.{◌≡◌, ℕ, List, Option};
ghost use Rattle.xvsh_read.specs.Path.{Path};
ghost use Rattle.xvsh_ends.specs.Ends.{Asked, IsDue, asks_traced};
ghost use Rattle.xvsh_ends.specs.Requests.{traced_asked};

use crate::ending::{Ending, report_untraced};
use crate::tracing::beside;
use std::alloc::Global;
use xvsh_read::{Traces, Unwritten};

// Writes a page at this path, if there is one.
fn write_page<T: Traces>(
    page: Option<Vec<u8>>,
    path: &str,
    traces: &mut T,
) -> Result<(), Unwritten> {
    match page {
        Some(bytes) => {
            traces.begin_trace(path)?;
            traces.write_trace(bytes.as_slice())
        }
        None => Ok(()),
    }
}

// Writes a page, if there is one, at this path, and returns how the program ends then.
fn drawn_at<T: Traces>(
    alloc: Global,
    ending: Ending,
    page: Option<Vec<u8>>,
    path: &str,
    traces: &mut T,
) -> Ending
    ensures { (input : Option (List ℕ)) (file : Path → Option (List ℕ)) (what : Asked) → IsDue input file what ending → IsDue input file (asks_traced what path.now) result }
{
    match write_page(page, path, traces) {
        Ok(()) => beside(alloc, ending, path),
        Err(Unwritten) => report_untraced(alloc, path),
    }
}

/// Writes a page, if there is to be one, and returns how the program ends then: as before, but without an output where the page
/// goes there; or with the report that the page can't be written.
pub(crate) fn drawn<T: Traces>(
    alloc: Global,
    ending: Ending,
    page: Option<Vec<u8>>,
    path: Option<&str>,
    traces: &mut T,
) -> Ending
    ensures { (input : Option (List ℕ)) (file : Path → Option (List ℕ)) (what : Asked) → IsDue input file what ending → IsDue input file (traced_asked path.entry what) result }
{
    match path {
        Some(path) => drawn_at(alloc, ending, page, path, traces),
        None => ending,
    }
}
