//! A loaded script, and its limits.

ghost use Rattle.std.specs.Prelude.{◌≡◌, true, map, IfNone, IfSome, IfErr, IfOk};
ghost use Rattle.script_load.specs.Limits.{are_small, is_small_line, IsFirstLarge};
ghost use Rattle.script_load.specs.Line.{line_of, lines_of};

use crate::fault::LineTooLarge;
use crate::line::{Line, Lines};
use crate::profile::Profile;
use sh_tree::{has_few_words, is_short};
use std::alloc::Allocator;

/// The most bytes of a line's text (own).
const MAX_TEXT: usize = 511;

/// A script: its lines, and what `>>` means in it (own). Every word, redirection name and text in the lines
/// has at most 511 bytes, and no command has more than nine words.
#[derive(Drop)]
pub struct Script<A: Allocator> {
    pub lines: Lines<A>,
    pub profile: Profile,
    ghost small: { are_small (lines_of lines) ≡ true },
}

// Whether a line is within the limits.
fn is_small<A: Allocator>(line: &Line<A>) -> bool
    ensures { result ≡ is_small_line (line_of line.now) }
{
    match line {
        Line::Tree(tree) => is_short(tree) && has_few_words(tree),
        Line::Bad(_, text) | Line::Cd(text) => text.as_slice().len() <= MAX_TEXT,
    }
}

// The number of the first of these lines that is not within the limits, counted from 1.
fn first_large<A: Allocator>(lines: &[Line<A>]) -> Option<usize>
    ensures none { IfNone result (are_small (map line_of lines.now) ≡ true) }
    ensures some { IfSome result (IsFirstLarge (map line_of lines.now)) }
{
    for (i, line) in lines.iter().enumerate() {
        if !is_small(line) {
            return Some(i + 1);
        }
    }
    None
}

impl<A: Allocator> Script<A> {
    /// The script of these lines under this profile, for lines that a program made (own).
    ///
    /// `LineTooLarge` where a word, a redirection's name or a text has more than 511 bytes, or a command more
    /// than nine words: it names the first such line, counted from 1, and the lines are dropped.
    pub fn from_lines(lines: Lines<A>, profile: Profile) -> Result<Script<A>, LineTooLarge>
        ensures script { IfOk result (λ script. lines_of script.lines ≡ lines_of lines) }
        ensures profile { IfOk result (λ script. script.profile ≡ profile) }
        ensures fault { IfErr result (λ fault. IsFirstLarge (lines_of lines) fault.line) }
    {
        match first_large(lines.as_slice()) {
            Some(line) => Err(LineTooLarge { line }),
            None => Ok(Script { lines, profile }),
        }
    }
}
