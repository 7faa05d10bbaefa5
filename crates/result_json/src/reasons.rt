//! Why a script isn't settled, in an object.

use crate::words::clash_word;
use plain_run::Reason;
use std::alloc::{AllocError, Global};
use trace_lines::Line;

// What a reason says.
fn write_reason(object: &mut Line, reason: &Reason<Global>) -> Result<(), AllocError> {
    match reason {
        Reason::Background { line } => {
            object.word("kind", "background")?;
            object.count("line", *line as u64)
        }
        Reason::Clash { line, kind, name } => {
            object.word("kind", "clash")?;
            object.count("line", *line as u64)?;
            object.word("clash", clash_word(*kind))?;
            object.bytes("name", name.as_slice())
        }
        Reason::CutPipe { line, name, again } => {
            object.word("kind", "cut pipe")?;
            object.count("line", *line as u64)?;
            object.bytes("name", name.as_slice())?;
            object.count("again", *again as u64)
        }
        Reason::LooseInput { line, user } => {
            object.word("kind", "loose input")?;
            object.count("line", *line as u64)?;
            object.count("user", *user as u64)
        }
    }
}

// All reasons, in order, as the list `reasons`.
pub(crate) fn write_reasons(
    object: &mut Line,
    reasons: &[Reason<Global>],
) -> Result<(), AllocError> {
    object.begin_list("reasons")?;
    for reason in reasons {
        object.begin_raw_object()?;
        write_reason(object, reason)?;
        object.end_object()?;
    }
    object.end_list()
}
