//! The notes on a script, as values: what looks like shell there, and is not in xv6's shell.
#![tactic(auto)]

mod commands;
mod habits;
mod kind;
pub mod laws;
mod letters;
mod line_note;
mod note_list;
mod noting;
mod others;
mod row;
mod span;
mod whole;

pub use kind::NoteKind;
pub use line_note::LineNote;
pub use noting::notes_of;
pub use span::Span;
