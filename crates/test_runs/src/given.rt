//! A file that scripts are given, and in how many turns they run.

use mem_files::Files;
use std::alloc::Global;
use std::test::Fail;

/// Far more turns than any of the scripts needs.
pub(crate) const TURNS: u64 = 10_000_000;

/// One file.
pub(crate) fn file_of(alloc: Global, name: &str, bytes: &[u8]) -> Result<Files<Global>, Fail> {
    let mut files = Files::new(alloc);
    files.put(name.as_bytes(), bytes)?;
    Ok(files)
}
