//! What `explain` finds in a script.
ghost use Rattle.std.specs.Prelude.{◌≡◌, ◌↔◌, [], None, IfOk, IfErr, IsTrue};
ghost use Rattle.xvsh_checks.specs.Explain.{RanExplain};
ghost use Rattle.xvsh_checks.specs.Check.{IsCheckFault};

use crate::lacks::lack_of_text;
use crate::request::ExplainRequest;
use room_bounds::Lack;
use script_notes::{LineNote, notes_of};
use std::alloc::Global;
use xvsh_read::{Fault, Host, MAX_INPUT, read};

/// Whether there is no note, and no line that may not have room.
pub(crate) fn is_nothing_noted(notes: &[LineNote], lack: &Option<Lack>) -> bool
    ensures { IsTrue result ↔ ((notes.now ≡ []) × (lack.now ≡ None)) }
{
    match lack {
        None => notes.is_empty(),
        Some(_) => false,
    }
}

/// What `explain` finds in a script.
#[derive(Drop)]
pub struct Noted {
    /// The notes, in the order of the lines.
    pub notes: Vec<LineNote>,
    /// With which line first it may not have room.
    pub lack: Option<Lack>,
    /// No line of the script has a note, and none may not have room.
    pub is_fine: bool,
}

/// `explain`: reads the script, and returns its notes on the lines, with which line first it may need more processes, open files or
/// descriptors than xv6 has, and whether there is none of these (own). Nothing is written.
pub fn run_note<'a, H: Host>(
    alloc: Global,
    request: &ExplainRequest<'a>,
    host: &mut H,
) -> Result<Noted, Fault<'a>>
    ensures ran { IfOk result (λ noted. RanExplain (H.input host.old) (H.file host.old) request.now.source.script.now noted) }
    ensures fault { IfErr result (IsCheckFault (H.input host.old) (H.file host.old) request.now.source.script.now) }
{
    let bytes = read(alloc, host, request.source.script, MAX_INPUT)?;
    let notes = notes_of(alloc, bytes.as_slice())?;
    let lack = lack_of_text(alloc, bytes.as_slice())?;
    let is_fine = is_nothing_noted(notes.as_slice(), &lack);
    Ok(Noted {
        notes,
        lack,
        is_fine,
    })
}
