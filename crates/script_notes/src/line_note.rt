//! Notes as values.

use crate::kind::NoteKind;
use crate::span::Span;

/// A note on a line of a script (own).
#[derive(Debug, Drop)]
pub struct LineNote {
    /// The line, counted from 1.
    pub line: usize,
    /// The bytes of the line, without its LF.
    pub text: Vec<u8>,
    /// What it says.
    pub kind: NoteKind,
    /// The places of the line that it marks, in order and apart.
    pub spans: Vec<Span>,
}
