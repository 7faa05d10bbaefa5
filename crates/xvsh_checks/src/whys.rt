//! What `explain` reports of a script on its files and its input: its notes, the names that no file has, with which line first it
//! may not have room, and why it is settled or isn't.
ghost use Rattle.std.specs.Prelude.{◌≡◌, ◌↔◌, [], All, None, IfOk, IfErr, IsTrue, map};
ghost use Rattle.mem_files.specs.Files.{files};
ghost use Rattle.script_load.specs.Line.{lines_of};
ghost use Rattle.xvsh_plain.specs.Running.{IsMeaningFault};
ghost use Rattle.missing_names.specs.Missing.{missing_names};
ghost use Rattle.missing_names.specs.Texts.{shown};
ghost use Rattle.meaning_model.specs.Settled.{IsSettledScript};
ghost use Rattle.plain_run.specs.Reasons.{IsReason};
ghost use Rattle.xvsh_checks.specs.Lacks.{IsLackNoted};
ghost use Rattle.xvsh_checks.specs.Whys.{RanWhys, IsWhysFault};

use crate::lacks::lack_of;
use crate::noting::is_nothing_noted;
use crate::request::ExplainRequest;
use mem_files::Files;
use missing_names::{Missing, missing_names};
use plain_run::{Reason, plain_with_reasons};
use room_bounds::Lack;
use script_load::Script;
use script_notes::{LineNote, notes_of};
use std::alloc::Global;
use xvsh_plain::of_plain;
use xvsh_read::{Fault, Host, MAX_INPUT, prepare_read, read};

// Why a script isn't settled on this standard input and these files.
fn reasons_of<'a>(
    alloc: Global,
    script: &Script<Global>,
    stdin: &[u8],
    given: &Files<Global>,
) -> Result<Vec<Reason<Global>>, Fault<'a>>
    ensures each { IfOk result (λ reasons. All (IsReason script.now.profile (lines_of script.now.lines) stdin.now (files given.now)) reasons.items) }
    ensures none { IfOk result (λ reasons. (reasons.items ≡ []) ↔ IsSettledScript script.now.profile (lines_of script.now.lines) stdin.now (files given.now)) }
    ensures fault { IfErr result (IsMeaningFault script.now.profile (lines_of script.now.lines) stdin.now (files given.now)) }
{
    match plain_with_reasons(alloc, script, stdin, given) {
        Ok(reasoned) => Ok(reasoned.reasons),
        Err(fault) => Err(of_plain(fault)),
    }
}

// Whether there is no note, no missing name, no lack and no reason.
fn is_nothing(
    notes: &[LineNote],
    missing: &[Missing],
    lack: &Option<Lack>,
    reasons: &[Reason<Global>],
) -> bool
    ensures { IsTrue result ↔ ((notes.now ≡ []) × (missing.now ≡ []) × (lack.now ≡ None) × (reasons.now ≡ [])) }
{
    is_nothing_noted(notes, lack) && missing.is_empty() && reasons.is_empty()
}

/// What `explain` finds in a script on its files and its input.
#[derive(Drop)]
pub struct NotedWhys {
    /// The notes, in the order of the lines.
    pub notes: Vec<LineNote>,
    /// The first name of each line that no file has when the line runs.
    pub missing: Vec<Missing>,
    /// With which line first it may not have room.
    pub lack: Option<Lack>,
    /// Why the script isn't settled; nothing where it is.
    pub reasons: Vec<Reason<Global>>,
    /// There is no note, no such name, no such line and no reason.
    pub is_fine: bool,
}

/// What `explain` finds in a script on this standard input and these files, whose notes are these: the first name of each line that no
/// file has when the line runs, with which line first the script may need more processes, open files or descriptors than xv6 has, and
/// each reason why it isn't settled; and whether there is no note and none of these (own). The script is run by its meaning to find that
/// out.
///
/// `TooLarge` where its meaning passes a limit; `Memory` where memory is refused.
pub fn find_whys<'a>(
    alloc: Global,
    notes: Vec<LineNote>,
    script: &Script<Global>,
    stdin: &[u8],
    given: &Files<Global>,
) -> Result<NotedWhys, Fault<'a>>
    ensures notes { IfOk result (λ noted. noted.notes.items ≡ notes.items) }
    ensures missing { IfOk result (λ noted. map shown noted.missing.items ≡ missing_names (lines_of script.now.lines) given.now) }
    ensures lack { IfOk result (λ noted. IsLackNoted (lines_of script.now.lines) noted.lack) }
    ensures each { IfOk result (λ noted. All (IsReason script.now.profile (lines_of script.now.lines) stdin.now (files given.now)) noted.reasons.items) }
    ensures none { IfOk result (λ noted. (noted.reasons.items ≡ []) ↔ IsSettledScript script.now.profile (lines_of script.now.lines) stdin.now (files given.now)) }
    ensures fine { IfOk result (λ noted. IsTrue noted.is_fine ↔ ((notes.items ≡ []) × (noted.missing.items ≡ []) × (noted.lack ≡ None) × (noted.reasons.items ≡ []))) }
    ensures fault { IfErr result (IsMeaningFault script.now.profile (lines_of script.now.lines) stdin.now (files given.now)) }
{
    let reasons = reasons_of(alloc, script, stdin, given)?;
    let missing = missing_names(alloc, script, given)?;
    let lack = lack_of(script);
    let is_fine = is_nothing(
        notes.as_slice(),
        missing.as_slice(),
        &lack,
        reasons.as_slice(),
    );
    Ok(NotedWhys {
        notes,
        missing,
        lack,
        reasons,
        is_fine,
    })
}

/// `explain` with files: reads the script, the files in order, and standard input unless that is the script, and returns its notes on the
/// lines, the first name of each line that no file has when the line runs, with which line first the script may need more processes, open
/// files or descriptors than xv6 has, and each reason why it isn't settled on these files and this input; and whether there is none of
/// these (own). The script is run by its meaning to find that out. Nothing is written.
pub fn run_note_whys<'a, H: Host>(
    alloc: Global,
    request: &ExplainRequest<'a>,
    host: &mut H,
) -> Result<NotedWhys, Fault<'a>>
    ensures ran { IfOk result (λ noted. RanWhys (H.input host.old) (H.file host.old) request.now.source.profile request.now.source.script.now request.now.source.files.now noted) }
    ensures fault { IfErr result (IsWhysFault (H.input host.old) (H.file host.old) request.now.source.profile request.now.source.script.now request.now.source.files.now) }
{
    let bytes = read(alloc, host, request.source.script, MAX_INPUT)?;
    let notes = notes_of(alloc, bytes.as_slice())?;
    let start = prepare_read(alloc, host, &request.source, bytes.as_slice())?;
    let stdin = start.stdin.as_slice();
    let noted = find_whys(alloc, notes, &start.script, stdin, &start.files)?;
    Ok(noted)
}
