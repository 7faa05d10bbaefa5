//! The sentences of missing names.
ghost use Rattle.std.specs.Prelude.{◌≡◌, ◌++◌, IfOk, OnOk, map};
ghost use Rattle.missing_names.specs.Texts.{head_text, missing_text, missing_texts, shown};

use crate::missing::Missing;
use std::alloc::{AllocError, Global};

// Adds what stands before a name of this line.
fn add_head(alloc: Global, line: usize, text: &mut Vec<u8>) -> Result<(), AllocError>
    ensures { OnOk result (text.new.items ≡ text.old.items ++ head_text line) }
{
    let head = format!(in alloc; "line {line}: no file has the name ")?;
    text.extend_from_slice(head.as_bytes())
}

// Adds the sentence of a name.
fn add_text(alloc: Global, missing: &Missing, text: &mut Vec<u8>) -> Result<(), AllocError>
    ensures { OnOk result (text.new.items ≡ text.old.items ++ missing_text (shown missing.now)) }
{
    add_head(alloc, missing.line, text)?;
    text.extend_from_slice(missing.name.as_slice())?;
    text.extend_from_slice(
        b": no FILE gives it, and no line writes it, so it can't be opened\n".as_slice(),
    )?;
    Ok(())
}

/// The sentences of these names, a line each in their order: `line N: no file has the name NAME: ..` and LF (own). The error is that
/// memory was refused.
pub fn text_of_missing(alloc: Global, missing: &[Missing]) -> Result<Vec<u8>, AllocError>
    ensures { IfOk result (λ text. text.items ≡ missing_texts (map shown missing.now)) }
{
    let mut text = Vec::new(alloc);
    let mut rest = missing;
    while let Some((first, after)) = rest.split_first() {
        add_text(alloc, first, &mut text)?;
        rest = after;
    }
    Ok(text)
}
