//! The report of the turns that are enough for a script.
ghost use Rattle.std.specs.Prelude.{◌≡◌, ◌++◌, IfOk, string_bytes};
ghost use Rattle.check_texts.specs.Findings.{findings_text};
ghost use Rattle.check_texts.specs.Turns.{turns_text};

use crate::findings::text_of_findings;
use std::alloc::{AllocError, Global};
use xvsh_checks::CountedFindings;

// The line `turns N`.
fn turns_line(alloc: Global, turns: Option<u64>) -> Result<String, AllocError>
    ensures { IfOk result (λ line. string_bytes line ≡ turns_text turns) }
{
    match turns {
        Some(turns) => format!(in alloc; "turns {turns}\n"),
        None => String::from_str(alloc, "turns over 1000000000\n"),
    }
}

/// The report of what was found in a script's lines, and behind it `turns N`, in how many turns the script runs to its end (own).
///
/// `AllocError` where memory is refused.
pub fn text_of_counted(alloc: Global, counted: &CountedFindings) -> Result<Vec<u8>, AllocError>
    ensures { IfOk result (λ text. text.items ≡ findings_text counted.now.findings.list.items ++ turns_text counted.now.turns) }
{
    let mut text = text_of_findings(alloc, counted.findings.list.as_slice())?;
    let line = turns_line(alloc, counted.turns)?;
    text.extend_from_slice(line.as_bytes())?;
    Ok(text)
}
