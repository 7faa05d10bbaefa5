//! The parts of sentences.
ghost use Rattle.std.specs.Prelude.{◌≡◌, ◌++◌, OnOk};
ghost use Rattle.reason_sentences.specs.Sentences.{clash_begin, clash_end, head_text, place_text};

use conflict_check::ClashKind;
use std::alloc::{AllocError, Global};

// Adds `line N: not settled: `.
pub fn add_head(alloc: Global, line: usize, text: &mut Vec<u8>) -> Result<(), AllocError>
    ensures { OnOk result (text.new.items ≡ text.old.items ++ head_text line) }
{
    let head = format!(in alloc; "line {line}: not settled: ")?;
    text.extend_from_slice(head.as_bytes())
}

// Adds what another line is called in the sentence of this one.
pub fn add_place(
    alloc: Global,
    line: usize,
    other: usize,
    text: &mut Vec<u8>,
) -> Result<(), AllocError>
    ensures { OnOk result (text.new.items ≡ text.old.items ++ place_text line other) }
{
    if line == other {
        return text.extend_from_slice(b"the line".as_slice());
    }
    let place = format!(in alloc; "line {other}")?;
    text.extend_from_slice(place.as_bytes())
}

// What stands before the name of a clash.
pub fn clash_begin(kind: ClashKind) -> &'static [u8]
    ensures { result.now ≡ clash_begin kind }
{
    match kind {
        ClashKind::PipeSides => b"both sides of a pipe use the file ".as_slice(),
        ClashKind::Enclosing => b"a redirection opens the file ".as_slice(),
    }
}

// What stands behind it.
pub fn clash_end(kind: ClashKind) -> &'static [u8]
    ensures { result.now ≡ clash_end kind }
{
    match kind {
        ClashKind::PipeSides =>
            b" and one of them writes it, so what comes out may depend on which is faster\n".as_slice(),
        ClashKind::Enclosing =>
            b" and its command uses it too, so it may be emptied or changed before it is read\n".as_slice(),
    }
}
