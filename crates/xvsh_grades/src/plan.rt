//! How scripts are judged.

use grade_tests::Loaded;
use std::alloc::Global;

/// How scripts are judged: the tests without a script of their own, by how many threads, and how many verdicts there will be.
#[derive(Clone, Copy)]
pub struct Plan<'t, 'p> {
    pub alloc: Global,
    pub tests: &'p [&'t Loaded],
    pub threads: usize,
    pub of: usize,
}
