//! Bytes on one line, and what is left out of many.
ghost use Rattle.std.specs.Prelude.{◌≡◌, ◌++◌, OnOk};
ghost use Rattle.explore_texts.specs.Cut.{cut_shown, rest_text};

use shown::add_shown;
use std::alloc::{AllocError, Global};

// How many bytes are shown of longer ones.
const SHOWN: usize = 200;

// Adds how many bytes there are, where the first are shown.
fn add_rest(alloc: Global, text: &mut Vec<u8>, count: usize) -> Result<(), AllocError>
    ensures { OnOk result (text.new.items ≡ text.old.items ++ rest_text count) }
{
    let rest = format!(in alloc; ".. ({count} bytes)")?;
    text.extend_from_slice(rest.as_bytes())
}

/// Adds what bytes are shown as (own), of more than 200 the first 200 and how many there are. No bytes are `(nothing)`.
pub fn add_bytes(alloc: Global, text: &mut Vec<u8>, bytes: &[u8]) -> Result<(), AllocError>
    ensures { OnOk result (text.new.items ≡ text.old.items ++ cut_shown bytes.now) }
{
    if bytes.is_empty() {
        return text.extend_from_slice(b"(nothing)".as_slice());
    }
    let count = bytes.len().min(SHOWN);
    add_shown(text, &bytes[..count])?;
    if count < bytes.len() {
        add_rest(alloc, text, bytes.len())?;
    }
    Ok(())
}
