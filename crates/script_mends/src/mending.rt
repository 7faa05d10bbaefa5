//! Mends a line of a script.
ghost use Rattle.std.specs.Prelude.{◌≡◌, ◌-◌, ◌++◌, map, IfOk, MatchOption, None, Some};
ghost use Rattle.mem_files.specs.Files.{files};
ghost use Rattle.plain_run.specs.Reasons.{line_at};
ghost use Rattle.script_mends.specs.Mended.{HasNoMend, HasNoRule, IsMend, IsMendOver, IsReasonOf, new_name};
ghost use Rattle.script_mends.specs.Mends.{clash_mend, mend_of, waiting};

use crate::lines::{Cut, line_behind};
use crate::names::free_name;
use crate::pipes::over_file;
use crate::task::Task;
use conflict_check::ClashKind;
use plain_run::Reason;
use std::alloc::{AllocError, Global};

fn waiting(byte: u8) -> u8
    ensures { result ≡ waiting byte }
{
    if byte == b'&' { b';' } else { byte }
}

// The line with a `;` for each `&`.
fn all_waiting(alloc: Global, text: &[u8]) -> Result<Vec<u8>, AllocError>
    ensures { IfOk result (λ line. line.items ≡ map waiting text.now) }
{
    text.iter().map(|byte| waiting(*byte)).collect(alloc)
}

// What stands in the place of a line with a clash of this kind, if a rule mends it.
fn clash_mend(
    alloc: Global,
    name: &[u8],
    kind: ClashKind,
    text: &[u8],
) -> Result<Option<Vec<u8>>, AllocError>
    ensures { IfOk result (λ found. MatchOption found (clash_mend name.now kind text.now ≡ None) (λ lines. clash_mend name.now kind text.now ≡ Some lines.items)) }
{
    match kind {
        ClashKind::PipeSides => over_file(alloc, name, text),
        ClashKind::Enclosing => Ok(None),
    }
}

// What stands in the place of the line of a reason, if a rule mends it.
fn mend_of(
    alloc: Global,
    name: &[u8],
    reason: &Reason<Global>,
    text: &[u8],
) -> Result<Option<Vec<u8>>, AllocError>
    ensures { IfOk result (λ found. MatchOption found (mend_of name.now reason.now text.now ≡ None) (λ lines. mend_of name.now reason.now text.now ≡ Some lines.items)) }
{
    match reason {
        Reason::Background { .. } => {
            let line = all_waiting(alloc, text)?;
            Ok(Some(line))
        }
        Reason::Clash { kind, .. } => clash_mend(alloc, name, *kind, text),
        Reason::CutPipe { .. } => over_file(alloc, name, text),
        Reason::LooseInput { .. } => over_file(alloc, name, text),
    }
}

// These lines between what stands around a line.
fn joined(alloc: Global, cut: &Cut<'_>, lines: &[u8]) -> Result<Vec<u8>, AllocError>
    ensures { IfOk result (λ bytes. bytes.items ≡ cut.now.before.now ++ (lines.now ++ cut.now.after.now)) }
{
    let mut bytes = Vec::from_slice(alloc, cut.before)?;
    bytes.extend_from_slice(lines)?;
    bytes.extend_from_slice(cut.after)?;
    Ok(bytes)
}

// How many lines stand before that of a reason.
fn count_before(reason: &Reason<Global>) -> usize
    ensures { result ≡ line_at reason.now - 1 }
{
    reason.line().saturating_sub(1)
}

// The script with the line of a reason mended, over the file of this number and name, if a rule mends it.
fn mended_over(
    alloc: Global,
    bytes: &[u8],
    reason: &Reason<Global>,
    number: usize,
    name: &[u8],
) -> Result<Option<Vec<u8>>, AllocError>
    requires { name.now ≡ new_name number }
    ensures { IfOk result (λ found. MatchOption found (HasNoRule bytes.now reason.now number) (λ new. IsMendOver bytes.now reason.now number new.items)) }
{
    let count = count_before(reason);
    let Some(cut) = line_behind(bytes, count) else {
        return Ok(None);
    };
    let found = mend_of(alloc, name, reason, cut.text)?;
    match found {
        Some(lines) => {
            let new = joined(alloc, &cut, lines.as_slice())?;
            Ok(Some(new))
        }
        None => Ok(None),
    }
}

/// The script with the line of a reason mended, if a rule mends it.
pub fn mended_by(
    alloc: Global,
    bytes: &[u8],
    reason: &Reason<Global>,
    task: &Task<'_>,
) -> Result<Option<Vec<u8>>, AllocError>
    requires { IsReasonOf task.now.profile task.now.stdin.now (files task.now.files.now) bytes.now reason.now }
    ensures { IfOk result (λ found. MatchOption found (HasNoMend task.now.profile task.now.stdin.now (files task.now.files.now) bytes.now) (λ new. IsMend task.now.profile task.now.stdin.now (files task.now.files.now) bytes.now new.items)) }
{
    let free = free_name(alloc, bytes, task.files)?;
    match free {
        Some((number, name)) => mended_over(alloc, bytes, reason, number, name.as_slice()),
        None => Ok(None),
    }
}
