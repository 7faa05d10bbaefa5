//! The lines of a trace: a run as JSON, one object a line, in UTF-8.
//!
//! The first object is the run (`head_line`), then comes one an event (`TraceLines`), and last the end (`end_line`). The
//! fields are in `docs/FORMATS.md`. A line is written into a buffer that is handed over, so a trace takes no more memory
//! than its longest line and what the run itself takes. `Line` writes one object, of a result too.
#![tactic(auto)]

mod events;
mod fields;
mod files;
mod line;
mod objects;
mod past;
mod pipes;
mod run;

pub use events::{TraceLines, follow};
pub use line::Line;
pub use run::{End, Head, end_line, head_line};
