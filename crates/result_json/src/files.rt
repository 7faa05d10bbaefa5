//! Files in an object.

use mem_files::Files;
use prog_parts::is_among;
use sh_lexer::Bytes;
use std::alloc::{AllocError, Global};
use trace_lines::Line;

// A file of the list: its name, its length, its bytes, and, where that is known, whether it is soft.
fn write_file(
    line: &mut Line,
    name: &[u8],
    bytes: &[u8],
    is_soft: Option<bool>,
) -> Result<(), AllocError> {
    line.begin_raw_object()?;
    line.bytes("name", name)?;
    line.count("length", bytes.len() as u64)?;
    line.bytes("bytes", bytes)?;
    if let Some(is_soft) = is_soft {
        line.truth("soft", is_soft)?;
    }
    line.end_object()
}

// Whether a name is among those of the soft files, where these are known.
fn softness(soft: Option<&[Bytes<Global>]>, name: &[u8]) -> Option<bool> {
    match soft {
        Some(names) => Some(is_among(names, name)),
        None => None,
    }
}

/// All files, in byte order of their names, as the list `files` (own): of each its `name`, its `length` in bytes, its `bytes`,
/// and, where the names of the soft files are given, whether it is `soft`.
///
/// `AllocError` where memory for the text is refused.
pub fn write_files(
    line: &mut Line,
    files: &Files<Global>,
    soft: Option<&[Bytes<Global>]>,
) -> Result<(), AllocError> {
    line.begin_list("files")?;
    for at in 0..files.count() {
        if let Some(name) = files.name_at(at) {
            let bytes = files.get(name).unwrap_or(&[]);
            write_file(line, name, bytes, softness(soft, name))?;
        }
    }
    line.end_list()
}
