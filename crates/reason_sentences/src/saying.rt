//! The sentences of reasons.
ghost use Rattle.std.specs.Prelude.{◌≡◌, ◌++◌, OnOk, IfOk, map};
ghost use Rattle.reason_sentences.specs.Sentences.{clash_text, cut_text, first_text, joined, loose_text, reason_text, why_text};

use crate::parts::{add_head, add_place, clash_begin, clash_end};
use conflict_check::ClashKind;
use plain_run::Reason;
use std::alloc::{AllocError, Global};

const SETTLED: &str =
    "settled: on these files and this input every order of the processes prints the same; its pipes are safe, for the sides of each share no file that one of them writes, and what a reader leaves unread decides nothing that is used later\n";

// Adds the sentence of a clash.
fn add_clash(
    alloc: Global,
    line: usize,
    kind: ClashKind,
    name: &[u8],
    text: &mut Vec<u8>,
) -> Result<(), AllocError>
    ensures { OnOk result (text.new.items ≡ text.old.items ++ clash_text line kind name.now) }
{
    add_head(alloc, line, text)?;
    text.extend_from_slice(clash_begin(kind))?;
    text.extend_from_slice(name)?;
    text.extend_from_slice(clash_end(kind))
}

// Adds the sentence of a cut pipe.
fn add_cut(
    alloc: Global,
    line: usize,
    name: &[u8],
    again: usize,
    text: &mut Vec<u8>,
) -> Result<(), AllocError>
    ensures { OnOk result (text.new.items ≡ text.old.items ++ cut_text line name.now again) }
{
    add_head(alloc, line, text)?;
    text.extend_from_slice(
        b"a pipe's right side may stop before it has read all, as head does, so how much the left side writes to the file ".as_slice(),
    )?;
    text.extend_from_slice(name)?;
    text.extend_from_slice(b" isn't fixed, and ".as_slice())?;
    add_place(alloc, line, again, text)?;
    text.extend_from_slice(b" names that file again\n".as_slice())?;
    Ok(())
}

// Adds the sentence of an input that is used again.
fn add_loose(alloc: Global, line: usize, user: usize, text: &mut Vec<u8>) -> Result<(), AllocError>
    ensures { OnOk result (text.new.items ≡ text.old.items ++ loose_text line user) }
{
    add_head(alloc, line, text)?;
    text.extend_from_slice(
        b"a command may stop before it has read all of its input, so how much of that is left isn't fixed, and a later command of ".as_slice(),
    )?;
    add_place(alloc, line, user, text)?;
    text.extend_from_slice(b" may read on from there\n".as_slice())?;
    Ok(())
}

/// Adds the sentence of a reason, `line N: not settled: SENTENCE` and LF (own). Lines are counted from 1. The error is that
/// memory was refused.
pub fn add_reason(
    alloc: Global,
    reason: &Reason<Global>,
    text: &mut Vec<u8>,
) -> Result<(), AllocError>
    ensures { OnOk result (text.new.items ≡ text.old.items ++ reason_text reason.now) }
{
    match reason {
        Reason::Background { line } => {
            add_head(alloc, *line, text)?;
            text.extend_from_slice(
                b"a command runs behind &, so what comes next doesn't wait for it and may run at the same time\n".as_slice(),
            )
        }
        Reason::Clash { line, kind, name } => {
            add_clash(alloc, *line, *kind, name.as_slice(), text)
        }
        Reason::CutPipe { line, name, again } => {
            add_cut(alloc, *line, name.as_slice(), *again, text)
        }
        Reason::LooseInput { line, user } => add_loose(alloc, *line, *user, text),
    }
}

// Adds the sentences of reasons, in order.
fn add_reasons(
    alloc: Global,
    reasons: &[Reason<Global>],
    text: &mut Vec<u8>,
) -> Result<(), AllocError>
    ensures { OnOk result (text.new.items ≡ text.old.items ++ joined (map reason_text reasons.now)) }
{
    let mut rest = reasons;
    while let Some((reason, after)) = rest.split_first() {
        add_reason(alloc, reason, text)?;
        rest = after;
    }
    Ok(())
}

/// Why a script isn't settled, a sentence a line in the order of these reasons; where there is none, one sentence that says that
/// it is settled, and why its pipes are safe (own). The error is that memory was refused.
pub fn why(alloc: Global, reasons: &[Reason<Global>]) -> Result<Vec<u8>, AllocError>
    ensures { IfOk result (λ text. text.items ≡ why_text (map reason_text reasons.now)) }
{
    let mut text = Vec::new(alloc);
    match reasons.split_first() {
        Some((first, after)) => {
            add_reason(alloc, first, &mut text)?;
            add_reasons(alloc, after, &mut text)?;
        }
        None => text.extend_from_slice(SETTLED.as_bytes())?,
    }
    Ok(text)
}

/// The sentence of the first of these reasons, with its LF; nothing where there is none (own). The error is that memory was
/// refused.
pub fn first_reason(alloc: Global, reasons: &[Reason<Global>]) -> Result<Vec<u8>, AllocError>
    ensures { IfOk result (λ text. text.items ≡ first_text (map reason_text reasons.now)) }
{
    let mut text = Vec::new(alloc);
    if let Some(reason) = reasons.first() {
        add_reason(alloc, reason, &mut text)?;
    }
    Ok(text)
}
