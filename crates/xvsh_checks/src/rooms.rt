//! What `check --room` finds: in the lines of a script, and the room that it needs.
ghost use Rattle.std.specs.Prelude.{◌↔◌, Bool, List, false, IfOk, IfErr, IsTrue, map};
ghost use Rattle.mem_files.specs.Name.{Name, Bytes};
ghost use Rattle.script_load.specs.Line.{ScriptLine, line_of, lines_of};
ghost use Rattle.room_model.specs.Roomy.{IsRoomyScript};
ghost use Rattle.xvsh_read.specs.Starting.{Starts, IsStartFault};
ghost use Rattle.xvsh_checks.specs.Check.{AreHarmless, IsHarmless};
ghost use Rattle.xvsh_checks.specs.Room.{IsGrowthFound, IsRoomFault, IsRoomFound, RanRoom};

use crate::finding::{Findings, find};
use crate::request::CheckRequest;
use crate::room_found::{Growth, RoomFound};
use conflict_check::{clash, has_back};
use mem_files::Files;
use room_bounds::{behind_of, first_behind, first_without_room, growth_of, is_roomy, room_of};
use script_load::{Line, Profile, Script};
use std::alloc::Global;
use xvsh_read::{Fault, Host, Source, Start, prepare};

// Whether a line has neither a clash nor a `&`.
fn is_clear_line(line: &Line<Global>) -> bool
    ensures { IsTrue result ↔ IsHarmless false (line_of line.now) }
{
    match line {
        Line::Tree(tree) => !has_back(tree) && clash(tree).is_none(),
        Line::Bad(..) | Line::Cd(_) => true,
    }
}

/// Whether no line has a clash or a `&`.
pub(crate) fn is_clear(lines: &[Line<Global>]) -> bool
    ensures { IsTrue result ↔ AreHarmless false (map line_of lines.now) }
{
    for line in lines {
        if !is_clear_line(line) {
            return false;
        }
    }
    true
}

// How many files a script makes there be at most, and by how much they grow, where that is known.
fn find_growth(script: &Script<Global>, stdin: &[u8], given: &Files<Global>) -> Option<Growth>
    ensures { IsGrowthFound (lines_of script.now.lines) stdin.now given.now result }
{
    match growth_of(script, stdin, given) {
        Some(bytes) => Some(Growth {
            files: room_of(script, stdin, given).files,
            bytes,
        }),
        None => None,
    }
}

/// What is known of the room that a script needs on this standard input and these files.
pub fn find_room(script: &Script<Global>, stdin: &[u8], given: &Files<Global>) -> RoomFound
    ensures { IsRoomFound (lines_of script.now.lines) stdin.now given.now result }
{
    if is_clear(script.lines.as_slice()) {
        RoomFound::Known {
            room: room_of(script, stdin, given),
            lack: first_without_room(script, stdin, given),
        }
    } else {
        RoomFound::Part {
            behind: behind_of(script),
            growth: find_growth(script, stdin, given),
            lack: first_behind(script),
        }
    }
}

// Whether it has room by what was found.
fn has_room(found: &RoomFound) -> bool
    ensures { (lines : List ScriptLine) (input : Bytes) (files : List (Name × Bytes)) → IsRoomFound lines input files found.now → IsTrue result ↔ (AreHarmless false lines × IsRoomyScript lines input files) }
{
    match found {
        RoomFound::Known { room, .. } => is_roomy(room),
        RoomFound::Part { .. } => false,
    }
}

/// Whether a script has harmless lines, and room too: by whether its lines are harmless, strictly or not, and by what is known of its
/// room.
pub fn is_fine(is_harmless: bool, found: &RoomFound) -> bool
    ensures { (strict : Bool) (lines : List ScriptLine) (input : Bytes) (files : List (Name × Bytes)) → (IsTrue is_harmless ↔ AreHarmless strict lines) → IsRoomFound lines input files found.now
        → IsTrue result ↔ (AreHarmless strict lines × IsRoomyScript lines input files) }
{
    is_harmless && has_room(found)
}

// What a request reads.
fn start_of<'a, H: Host>(
    alloc: Global,
    request: &CheckRequest<'a>,
    host: &mut H,
) -> Result<Start, Fault<'a>>
    ensures start { IfOk result (λ start. Starts (H.input host.old) (H.file host.old) false request.now.script.now request.now.files.now (lines_of start.script.lines) start.files start.stdin.items) }
    ensures fault { IfErr result (IsStartFault (H.input host.old) (H.file host.old) false request.now.script.now request.now.files.now) }
{
    let source = Source {
        profile: Profile::Xv6,
        script: request.script,
        files: request.files,
    };
    prepare(alloc, host, &source, false)
}

/// What `check --room` finds in a script.
#[derive(Drop)]
pub struct RoomFindings {
    /// What is found in its lines; they are harmless where the script has room, too.
    pub findings: Findings,
    /// What is known of its room.
    pub found: RoomFound,
}

/// `check --room`: reads the script, the files in order, and standard input unless that is the script, and returns what is found in the
/// script's lines, and how much of xv6's tables it needs at most, whatever the order of its processes, and with which line first it may
/// need more than there is (own), of a script with a clash or a `&` with which line of processes and descriptors alone; and whether the
/// lines are harmless and have room. Nothing is written.
pub fn run_find_room<'a, H: Host>(
    alloc: Global,
    request: &CheckRequest<'a>,
    host: &mut H,
) -> Result<RoomFindings, Fault<'a>>
    ensures ran { IfOk result (λ room. RanRoom (H.input host.old) (H.file host.old) request.now.script.now request.now.files.now request.now.is_strict room.findings.is_harmless room.findings.list.items room.found) }
    ensures fault { IfErr result (IsRoomFault (H.input host.old) (H.file host.old) request.now.script.now request.now.files.now) }
{
    let start = start_of(alloc, request, host)?;
    let found = find_room(&start.script, start.stdin.as_slice(), &start.files);
    let mut findings = find(alloc, &start.script, request.is_strict)?;
    findings.is_harmless = is_fine(findings.is_harmless, &found);
    Ok(RoomFindings { findings, found })
}
