//! The result of a run by its meaning.

use crate::files::write_files;
use crate::head::begin_result;
use crate::reasons::write_reasons;
use crate::run::write_dead;
use plain_run::Reasoned;
use std::alloc::{AllocError, Global};
use xvsh_read::Status;

/// The result of a run of a script by its meaning as one object of JSON, and LF (own): `format`, `version`, `command` `plain`,
/// `status` `settled` or `not settled`, `code`, the status with which the program ends, `output`, `files`, `settled`,
/// `reasons` and `dead_lines`, the numbers of the script's lines that are no command or name no program.
///
/// Bytes are a string where they are UTF-8, else an object whose member `base64` is their base64. Lines are counted from 1.
/// `AllocError` where memory for the text is refused.
pub fn plain_result(
    alloc: Global,
    reasoned: &Reasoned<Global>,
    dead: &[usize],
    code: Status,
) -> Result<Vec<u8>, AllocError> {
    let plain = &reasoned.plain;
    let status = if plain.settled {
        "settled"
    } else {
        "not settled"
    };
    let mut line = begin_result(alloc, "plain", status, code)?;
    line.bytes("output", plain.out.as_slice())?;
    write_files(&mut line, &plain.files, Some(plain.soft.as_slice()))?;
    line.truth("settled", plain.settled)?;
    write_reasons(&mut line, reasoned.reasons.as_slice())?;
    write_dead(&mut line, dead)?;
    line.end()
}
