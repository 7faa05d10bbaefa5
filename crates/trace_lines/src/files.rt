//! Files in a line.

use crate::line::Line;
use mem_files::Files;
use std::alloc::{AllocError, Global};

// How many bytes of a file are shown at most.
const HEAD_SIZE: usize = 32;

// The file as an object of a list: its name, its length and its first bytes.
pub(crate) fn write_file(line: &mut Line, name: &[u8], bytes: &[u8]) -> Result<(), AllocError> {
    line.begin_raw_object()?;
    line.bytes("name", name)?;
    line.count("length", bytes.len() as u64)?;
    line.bytes("head", &bytes[..bytes.len().min(HEAD_SIZE)])?;
    line.end_object()
}

// All files in byte order of their names.
pub(crate) fn write_files(line: &mut Line, files: &Files<Global>) -> Result<(), AllocError> {
    line.begin_list("files")?;
    for at in 0..files.count() {
        if let Some(name) = files.name_at(at) {
            write_file(line, name, files.get(name).unwrap_or(&[]))?;
        }
    }
    line.end_list()
}
