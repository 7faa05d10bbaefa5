//! How explanations end: with a text, or with one object of JSON, of the same values; or with the script mended.
ghost use Rattle.std.specs.Prelude.{◌≡◌, true, false, IfOk};
ghost use Rattle.check_texts.specs.Explanations.{noted_text, whys_text};
ghost use Rattle.xvsh_ends.specs.Ends.{IsDue};
ghost use Rattle.xvsh_ends.specs.Requests.{explain_asked, explain_told_asked, fix_asked, json_asked};

use crate::ending::{Ending, Line, report, report_fault};
use crate::printing::{print_as, report_as};
use crate::values::print_made;
use check_texts::{text_of_noted, text_of_whys};
use result_json::{ExplainValues, explain_result};
use std::alloc::{AllocError, Global};
use xvsh_checks::{ExplainRequest, Noted, NotedWhys, run_fix, run_note, run_note_whys};
use xvsh_read::{Host, Status};

// What is printed of these notes.
fn notes_made(
    alloc: Global,
    is_json: bool,
    noted: &Noted,
    code: Status,
) -> Result<Vec<u8>, AllocError>
    ensures { is_json ≡ false → IfOk result (λ made. made.items ≡ noted_text noted.now) }
{
    if !is_json {
        return text_of_noted(alloc, noted);
    }
    let values = ExplainValues {
        notes: noted.notes.as_slice(),
        missing: &[],
        lack: noted.lack,
        reasons: None,
    };
    explain_result(alloc, &values, code)
}

// Returns the notes on a script, or why there are none.
fn notes_ending<H: Host>(alloc: Global, request: &ExplainRequest<'_>, host: &mut H) -> Ending
    ensures { IsDue (H.input host.old) (H.file host.old) (json_asked request.now.is_json (explain_asked false request.now)) result }
{
    match run_note(alloc, request, host) {
        Ok(noted) => {
            let code = Status::by(noted.is_fine);
            let made = notes_made(alloc, request.is_json, &noted, code);
            print_as(alloc, request.is_json, made, code)
        }
        Err(fault) => report_as(alloc, "explain", request.is_json, fault),
    }
}

// What is printed of these notes and reasons.
fn whys_made(
    alloc: Global,
    is_json: bool,
    noted: &NotedWhys,
    code: Status,
) -> Result<Vec<u8>, AllocError>
    ensures { is_json ≡ false → IfOk result (λ made. made.items ≡ whys_text noted.now) }
{
    if !is_json {
        return text_of_whys(alloc, noted);
    }
    let values = ExplainValues {
        notes: noted.notes.as_slice(),
        missing: noted.missing.as_slice(),
        lack: noted.lack,
        reasons: Some(noted.reasons.as_slice()),
    };
    explain_result(alloc, &values, code)
}

// Returns the notes on a script and why it is settled or isn't, or why there are none.
fn whys_ending<H: Host>(alloc: Global, request: &ExplainRequest<'_>, host: &mut H) -> Ending
    ensures { IsDue (H.input host.old) (H.file host.old) (json_asked request.now.is_json (explain_asked true request.now)) result }
{
    match run_note_whys(alloc, request, host) {
        Ok(noted) => {
            let code = Status::by(noted.is_fine);
            let made = whys_made(alloc, request.is_json, &noted, code);
            print_as(alloc, request.is_json, made, code)
        }
        Err(fault) => report_as(alloc, "explain", request.is_json, fault),
    }
}

// Returns a script mended by rules so that it is settled, or why there is none.
fn fix_ending<H: Host>(alloc: Global, request: &ExplainRequest<'_>, host: &mut H) -> Ending
    ensures { IsDue (H.input host.old) (H.file host.old) (fix_asked request.now) result }
{
    match run_fix(alloc, request, host) {
        Ok(Some(text)) => print_made(alloc, Ok(text), Status::Done),
        Ok(None) => report(
            alloc,
            Line::Fixed("xvsh: no mend by rule makes this script settled\n"),
            Status::Failed,
        ),
        Err(fault) => report_fault(alloc, fault),
    }
}

/// Returns the notes on a script, and why it is settled or isn't if that is requested, or why there are none, as one object of JSON, if
/// that is requested; or the script mended by rules.
pub fn explain_ending<H: Host>(alloc: Global, request: &ExplainRequest<'_>, host: &mut H) -> Ending
    ensures { IsDue (H.input host.old) (H.file host.old) (explain_told_asked request.now.fixes request.now) result }
{
    if request.fixes {
        fix_ending(alloc, request, host)
    } else if request.tells_why {
        whys_ending(alloc, request, host)
    } else {
        notes_ending(alloc, request, host)
    }
}
