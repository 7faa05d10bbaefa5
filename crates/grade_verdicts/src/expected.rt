//! What a test gives to a script, and what it expects of it.

use mem_files::Files;
use script_load::Profile;
use std::alloc::Global;

/// A file that is expected (own).
#[derive(Debug, Drop)]
pub struct ExpectedFile {
    pub name: Vec<u8>,
    pub bytes: Vec<u8>,
}

/// What a test expects (own).
#[derive(Debug, Drop)]
pub struct Expected {
    /// The standard output.
    pub out: Vec<u8>,
    /// Files at the end. Others may be there too.
    pub files: Vec<ExpectedFile>,
}

/// A test, as a script is judged by it (own).
#[derive(Clone, Copy)]
pub struct Task<'a> {
    pub profile: Profile,
    /// The standard input.
    pub stdin: &'a [u8],
    /// The files at the beginning.
    pub files: &'a Files<Global>,
    pub expected: &'a Expected,
    /// The most bytes that a script may have.
    pub bytes: usize,
    /// The most states through which orders are tried.
    pub states: usize,
    /// The most events that a run on one hart may have; 0, or more than 1,000,000,000: as many as it takes.
    pub turns: u64,
}
