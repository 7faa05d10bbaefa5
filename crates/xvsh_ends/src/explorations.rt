//! How an exploration ends.
ghost use Rattle.std.specs.Prelude.{◌≡◌, ℕ, List, [], Option};
ghost use Rattle.xvsh_read.specs.Path.{Path};
ghost use Rattle.xvsh_read.specs.Writing.{out_text};
ghost use Rattle.script_outcomes.specs.declared.concluding.Conclusion.{Conclusion};
ghost use Rattle.script_outcomes.specs.Found.{Concludes};
ghost use Rattle.xvsh_explores.specs.Explores.{IsExploringFault};
ghost use Rattle.xvsh_ends.specs.Ends.{Asked, Due, IsDue, asks_witnessed, explore_status, told_text};
ghost use Rattle.xvsh_ends.specs.Requests.{explore_asked, explore_told_asked, json_asked, witnessed_asked};
ghost use Rattle.xvsh_read.specs.Status.{status_code};

use crate::ending::{Ending, Line, no_output, report_no_memory, report_untraced};
use crate::objects::{made_valued, valued_if};
use crate::pages::drawn;
use crate::playing::play;
use crate::unpaired::{exploring_fault_result, report_exploring};
use crate::witnesses::{WitnessFault, write_schedules};
use explore_texts::{Played, show};
use sh_lexer::Bytes;
use std::alloc::Global;
use xvsh_explores::{
    Conclusion, ExploreRequest, ExploringFault, Found, Watch, concluded, run_explore,
};
use xvsh_read::{Fault, Host, Output, Status, Traces};

// The status, by what was found as a whole.
fn status_of(conclusion: Conclusion) -> Status
    ensures { status_code result ≡ explore_status conclusion }
{
    match conclusion {
        Conclusion::OneOutput => Status::Done,
        Conclusion::SeveralOutputs | Conclusion::Stuck => Status::Amiss,
        Conclusion::Full | Conclusion::Part => Status::NoRoom,
    }
}

// What is printed of an exploration, but for its pages.
#[derive(Drop)]
struct Printed {
    found: Found,
    text: Vec<u8>,
    // Where there is to be a folder of them, a schedule of each outcome.
    schedules: Vec<Vec<u8>>,
    // The numbers of the script's lines that are no command, and of those and the ones that name no program.
    bad: Vec<usize>,
    dead: Vec<usize>,
}

// Prints this, with the status of this conclusion.
fn prints(alloc: Global, printed: Printed, conclusion: Conclusion) -> Ending
    ensures out { out_text result.output ≡ printed.text.items }
    ensures told { told_text result ≡ [] }
    ensures status { status_code result.status ≡ explore_status conclusion }
    ensures bad { result.bad.items ≡ printed.bad.items }
    ensures dead { result.dead.items ≡ printed.dead.items }
{
    Ending {
        output: Output {
            out: Bytes::from_vec(printed.text),
            ..no_output(alloc)
        },
        line: Line::Fixed(""),
        status: status_of(conclusion),
        recording: None,
        left: None,
        hint: "",
        bad: printed.bad,
        dead: printed.dead,
    }
}

// Writes the schedules, if there is to be a folder of them, and returns how the program ends then.
fn written<T: Traces>(
    alloc: Global,
    printed: Printed,
    witness: Option<&str>,
    traces: &mut T,
) -> Ending
    ensures { (input : Option (List ℕ)) (file : Path → Option (List ℕ)) (what : Asked) → ((text : List ℕ) (conclusion : Conclusion) → Concludes printed.found conclusion → Due input file what text [] (explore_status conclusion)) → IsDue input file (witnessed_asked witness.entry what) result }
{
    match witness {
        Some(folder) => written_at(alloc, printed, folder, traces),
        None => {
            let conclusion = concluded(&printed.found);
            prints(alloc, printed, conclusion)
        }
    }
}

// Writes the schedules in the folder at this path, and returns how the program ends then.
fn written_at<T: Traces>(alloc: Global, printed: Printed, folder: &str, traces: &mut T) -> Ending
    ensures { (input : Option (List ℕ)) (file : Path → Option (List ℕ)) (what : Asked) → ((text : List ℕ) (conclusion : Conclusion) → Concludes printed.found conclusion → Due input file what text [] (explore_status conclusion)) → IsDue input file (asks_witnessed what folder.now) result }
{
    match write_schedules(alloc, traces, folder, printed.schedules.as_slice()) {
        Ok(()) => {
            let conclusion = concluded(&printed.found);
            prints(alloc, printed, conclusion)
        }
        Err(WitnessFault::Unwritten(place)) => report_untraced(alloc, place.as_str()),
        Err(WitnessFault::Memory) => report_no_memory(alloc),
    }
}

// How an exploration ends, and the pages to be written beside it, if there are any.
#[derive(Drop)]
struct Paged {
    ending: Ending,
    page: Option<Vec<u8>>,
    played: Played,
}

// Reports why there is none, in an object if one is requested.
fn report_refused(alloc: Global, request: &ExploreRequest<'_>, fault: ExploringFault<'_>) -> Ending
    ensures { (input : Option (List ℕ)) (file : Path → Option (List ℕ)) → IsExploringFault input file request.now.source.script.now request.now.source.files.now request.now.pair fault.entry → IsDue input file (json_asked request.now.is_json (explore_told_asked request.now)) result }
{
    if request.is_json {
        let made = exploring_fault_result(alloc, fault);
        made_valued(alloc, report_exploring(alloc, request, fault), made)
    } else {
        report_exploring(alloc, request, fault)
    }
}

// The same, and no pages.
fn refused(alloc: Global, request: &ExploreRequest<'_>, fault: ExploringFault<'_>) -> Paged
    ensures { (input : Option (List ℕ)) (file : Path → Option (List ℕ)) → IsExploringFault input file request.now.source.script.now request.now.source.files.now request.now.pair fault.entry → IsDue input file (json_asked request.now.is_json (explore_told_asked request.now)) result.ending }
{
    Paged {
        ending: report_refused(alloc, request, fault),
        page: None,
        played: Played::Unasked,
    }
}

// Explores a script, writes schedules, if there are to be any, and returns what is shown of its outcomes, as text or as an object, or
// why nothing is.
fn shown<H: Host + Traces + Watch>(
    alloc: Global,
    request: &ExploreRequest<'_>,
    host: &mut H,
) -> Paged
    ensures { IsDue (H.input host.old) (H.file host.old) (json_asked request.now.is_json (explore_told_asked request.now)) result.ending }
{
    let explored = match run_explore(alloc, request, host) {
        Ok(explored) => explored,
        Err(fault) => return refused(alloc, request, fault),
    };
    let shown = match show(alloc, request, &explored, host) {
        Ok(shown) => shown,
        Err(_) => return refused(alloc, request, ExploringFault::Common(Fault::Memory)),
    };
    let printed = Printed {
        found: explored.found,
        text: shown.text,
        schedules: shown.schedules,
        bad: explored.bad,
        dead: explored.dead,
    };
    let ending = written(alloc, printed, request.witness, host);
    Paged {
        ending: valued_if(alloc, ending, request.is_json, "explore"),
        page: shown.page,
        played: shown.played,
    }
}

/// Explores a script, writes schedules and pages, if there are to be any, and returns what is shown of its outcomes, as text or as
/// an object, or why nothing is.
pub fn explore_ending<H: Host + Traces + Watch>(
    alloc: Global,
    request: &ExploreRequest<'_>,
    host: &mut H,
) -> Ending
    ensures { IsDue (H.input host.old) (H.file host.old) (explore_asked request.now) result }
{
    let Paged {
        ending,
        page,
        played,
    } = shown(alloc, request, host);
    let drawn = drawn(alloc, ending, page, request.draw, host);
    play(alloc, drawn, played, request.play, host)
}
