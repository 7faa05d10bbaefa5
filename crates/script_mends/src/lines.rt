//! Finds a line in a script's text.
ghost use Rattle.std.specs.Prelude.{◌≡◌, ◌<◌, ◌++◌, ℕ, List, IfNone, IfSome};
ghost use Rattle.script_mends.specs.Lines.{BeginsLine, IsLineAt, ends_in};

use prog_parts::split_line;

/// A line of a script's text, and what stands around it.
#[derive(Clone, Copy)]
pub struct Cut<'s> {
    pub before: &'s [u8],
    pub text: &'s [u8],
    pub after: &'s [u8],
}

// What stands behind so many lines, if there are so many.
fn behind_lines(bytes: &[u8], count: usize) -> Option<&[u8]>
    ensures none { IfNone result (ends_in bytes.now < count) }
    ensures some { IfSome result (λ rest. (before : List ℕ) × (bytes.now ≡ before ++ rest.now) × (ends_in before ≡ count) × BeginsLine before) }
{
    let mut rest = bytes;
    for _line in 0..count {
        let (_text, after) = split_line(rest)?;
        rest = after;
    }
    Some(rest)
}

/// The line behind so many lines of a script, if there is one; the last may be empty.
pub fn line_behind(bytes: &[u8], count: usize) -> Option<Cut<'_>>
    ensures none { IfNone result (ends_in bytes.now < count) }
    ensures some { IfSome result (λ cut. IsLineAt bytes.now count cut.before.now cut.text.now cut.after.now) }
{
    let rest = behind_lines(bytes, count)?;
    let before = &bytes[..bytes.len() - rest.len()];
    match split_line(rest) {
        Some((text, _after)) => Some(Cut {
            before,
            text,
            after: &rest[text.len()..],
        }),
        None => Some(Cut {
            before,
            text: rest,
            after: &[],
        }),
    }
}
