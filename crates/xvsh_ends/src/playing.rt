//! How an exploration ends beside which a page to play is written.
ghost use Rattle.std.specs.Prelude.{ℕ, List, Option};
ghost use Rattle.xvsh_read.specs.Path.{Path};
ghost use Rattle.xvsh_ends.specs.Ends.{Asked, IsDue, asks_played, asks_traced};
ghost use Rattle.xvsh_ends.specs.Requests.{played_asked};

use crate::ending::{Ending, report_made};
use crate::pages::drawn;
use explore_texts::{PageFault, Played};
use std::alloc::Global;
use xvsh_read::{Status, Traces};

// Reports that there is no page, and why.
fn report_unplayed(alloc: Global, fault: PageFault) -> Ending
    ensures { (input : Option (List ℕ)) (file : Path → Option (List ℕ)) (what : Asked) → IsDue input file (asks_played what) result }
{
    report_made(
        alloc,
        format!(in alloc; "xvsh: no page to play: {fault}\n"),
        Status::NoRoom,
    )
}

// Writes the page at this path, if there is one, and returns how the program ends then.
fn play_at<T: Traces>(
    alloc: Global,
    ending: Ending,
    played: Played,
    path: &str,
    traces: &mut T,
) -> Ending
    ensures { (input : Option (List ℕ)) (file : Path → Option (List ℕ)) (what : Asked) → IsDue input file what ending → IsDue input file (asks_played (asks_traced what path.now)) result }
{
    match played {
        Played::Unasked => drawn(alloc, ending, None, Some(path), traces),
        Played::Page(page) => drawn(alloc, ending, Some(page), Some(path), traces),
        Played::Refused(fault) => report_unplayed(alloc, fault),
    }
}

/// Writes a page to play, if there is to be one, and returns how the program ends then: as before, but without an output where the page
/// goes there; with the report that the page can't be written; or with the report that there is none.
pub(crate) fn play<T: Traces>(
    alloc: Global,
    ending: Ending,
    played: Played,
    path: Option<&str>,
    traces: &mut T,
) -> Ending
    ensures { (input : Option (List ℕ)) (file : Path → Option (List ℕ)) (what : Asked) → IsDue input file what ending → IsDue input file (played_asked path.entry what) result }
{
    match path {
        Some(path) => play_at(alloc, ending, played, path, traces),
        None => ending,
    }
}
