//! How checks end: with a text, or with one object of JSON, of the same values.
ghost use Rattle.std.specs.Prelude.{◌≡◌, ◌++◌, Bool, true, false, IfOk};
ghost use Rattle.check_texts.specs.Findings.{findings_text};
ghost use Rattle.check_texts.specs.Rooms.{room_report};
ghost use Rattle.check_texts.specs.Turns.{turns_text};
ghost use Rattle.xvsh_ends.specs.Ends.{IsDue};
ghost use Rattle.xvsh_ends.specs.Requests.{check_asked, json_asked};

use crate::ending::Ending;
use crate::printing::{print_as, report_as};
use check_texts::{text_of_counted, text_of_findings, text_of_room};
use result_json::{check_result, counted_result, room_result};
use std::alloc::{AllocError, Global};
use xvsh_checks::{
    CheckRequest, CountedFindings, Findings, RoomFindings, run_count, run_find, run_find_room,
};
use xvsh_read::{Host, Status};

// What is printed of the findings in a script's lines.
fn lines_made(
    alloc: Global,
    is_json: bool,
    found: &Findings,
    code: Status,
) -> Result<Vec<u8>, AllocError>
    ensures { is_json ≡ false → IfOk result (λ made. made.items ≡ findings_text found.now.list.items) }
{
    if is_json {
        check_result(alloc, found, code)
    } else {
        text_of_findings(alloc, found.list.as_slice())
    }
}

// Checks a script, and returns the report, or why there is none.
fn lines_ending<H: Host>(alloc: Global, request: &CheckRequest<'_>, host: &mut H) -> Ending
    ensures { IsDue (H.input host.old) (H.file host.old) (json_asked request.now.is_json (check_asked false false request.now)) result }
{
    match run_find(alloc, request, host) {
        Ok(found) => {
            let code = Status::by(found.is_harmless);
            let made = lines_made(alloc, request.is_json, &found, code);
            print_as(alloc, request.is_json, made, code)
        }
        Err(fault) => report_as(alloc, "check", request.is_json, fault),
    }
}

// What is printed of these findings and turns.
fn turns_made(
    alloc: Global,
    is_json: bool,
    counted: &CountedFindings,
    code: Status,
) -> Result<Vec<u8>, AllocError>
    ensures { is_json ≡ false → IfOk result (λ made. made.items ≡ findings_text counted.now.findings.list.items ++ turns_text counted.now.turns) }
{
    if is_json {
        counted_result(alloc, &counted.findings, counted.turns, code)
    } else {
        text_of_counted(alloc, counted)
    }
}

// Checks a script and counts its turns, and returns the report, or why there is none.
fn turns_ending<H: Host>(alloc: Global, request: &CheckRequest<'_>, host: &mut H) -> Ending
    ensures { (room : Bool) → IsDue (H.input host.old) (H.file host.old) (json_asked request.now.is_json (check_asked true room request.now)) result }
{
    match run_count(alloc, request, host) {
        Ok(counted) => {
            let code = Status::by(counted.findings.is_harmless);
            let made = turns_made(alloc, request.is_json, &counted, code);
            print_as(alloc, request.is_json, made, code)
        }
        Err(fault) => report_as(alloc, "check", request.is_json, fault),
    }
}

// What is printed of these findings and this room.
fn room_made(
    alloc: Global,
    is_json: bool,
    room: &RoomFindings,
    code: Status,
) -> Result<Vec<u8>, AllocError>
    ensures { is_json ≡ false → IfOk result (λ made. made.items ≡ findings_text room.now.findings.list.items ++ room_report room.now.found) }
{
    if is_json {
        room_result(alloc, &room.findings, &room.found, code)
    } else {
        text_of_room(alloc, room)
    }
}

// Checks a script and what room it needs, and returns the report, or why there is none.
fn room_ending<H: Host>(alloc: Global, request: &CheckRequest<'_>, host: &mut H) -> Ending
    ensures { IsDue (H.input host.old) (H.file host.old) (json_asked request.now.is_json (check_asked false true request.now)) result }
{
    match run_find_room(alloc, request, host) {
        Ok(room) => {
            let code = Status::by(room.findings.is_harmless);
            let made = room_made(alloc, request.is_json, &room, code);
            print_as(alloc, request.is_json, made, code)
        }
        Err(fault) => report_as(alloc, "check", request.is_json, fault),
    }
}

/// Checks a script, with its turns or its room if they are requested, and returns the report, or why there is none; as one object of
/// JSON, if that is requested.
pub fn check_ending<H: Host>(alloc: Global, request: &CheckRequest<'_>, host: &mut H) -> Ending
    ensures { IsDue (H.input host.old) (H.file host.old) (json_asked request.now.is_json (check_asked request.now.counts_turns request.now.tells_room request.now)) result }
{
    if request.counts_turns {
        turns_ending(alloc, request, host)
    } else if request.tells_room {
        room_ending(alloc, request, host)
    } else {
        lines_ending(alloc, request, host)
    }
}
