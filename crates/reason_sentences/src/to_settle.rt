//! What mends each reason.
ghost use Rattle.std.specs.Prelude.{◌≡◌, ◌++◌, OnOk, IfOk, string_bytes};
ghost use Rattle.reason_sentences.specs.Ways.{clash_way, cut_way, way_of, way_text, ways_text};

use conflict_check::ClashKind;
use plain_run::Reason;
use std::alloc::{AllocError, Global};

fn clash_way(kind: ClashKind) -> &'static [u8]
    ensures { result.now ≡ clash_way kind }
{
    match kind {
        ClashKind::PipeSides =>
            b"put the two sides of the pipe on two lines, with another file between them: LEFT > OTHER, and then RIGHT < OTHER\n".as_slice(),
        ClashKind::Enclosing =>
            b"write to another file, then cat it on the next line: COMMAND > OTHER, and then cat OTHER > FILE\n".as_slice(),
    }
}

// What mends a pipe whose right side may stop early.
fn cut_way() -> &'static [u8]
    ensures { result.now ≡ cut_way }
{
    b"put the two sides of the pipe on two lines, with a file between them, so that the left side runs to its end: LEFT > OTHER, and then RIGHT < OTHER\n".as_slice()
}

fn way_of(reason: &Reason<Global>) -> &'static [u8]
    ensures { result.now ≡ way_of reason.now }
{
    match reason {
        Reason::Background { .. } =>
            b"put ; in the place of &, or leave & out and put what comes next on a line of its own\n".as_slice(),
        Reason::Clash { kind, .. } => clash_way(*kind),
        Reason::CutPipe { .. } => cut_way(),
        Reason::LooseInput { .. } => cut_way(),
    }
}

// Adds what mends a reason.
fn add_way(alloc: Global, reason: &Reason<Global>, text: &mut Vec<u8>) -> Result<(), AllocError>
    ensures { OnOk result (text.new.items ≡ text.old.items ++ way_text reason.now) }
{
    let line = reason.line();
    let head = format!(in alloc; "line {line}: to settle it: ")?;
    text.extend_from_slice(head.as_bytes())?;
    text.extend_from_slice(way_of(reason))
}

/// What mends each of these reasons why a script isn't settled, `line N: to settle it: SENTENCE` and LF, in their order (own). Lines are
/// counted from 1. The error is that memory was refused.
pub fn ways(alloc: Global, reasons: &[Reason<Global>]) -> Result<Vec<u8>, AllocError>
    ensures { IfOk result (λ text. text.items ≡ ways_text reasons.now) }
{
    let mut text = Vec::new(alloc);
    let mut rest = reasons;
    while let Some((reason, after)) = rest.split_first() {
        add_way(alloc, reason, &mut text)?;
        rest = after;
    }
    Ok(text)
}
