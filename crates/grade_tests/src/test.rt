//! A test of a suite.

ghost use Rattle.grade_tests.specs.Tasks.{IsTaskOf};

use grade_verdicts::{Expected, Task};
use mem_files::Files;
use script_load::Profile;
use std::alloc::Global;

/// A test, with all bytes that it names (own).
#[derive(Drop)]
pub struct Loaded {
    pub name: String,
    pub points: u64,
    /// Its own script; `None` where it is run on each script that is graded.
    pub script: Option<Vec<u8>>,
    pub stdin: Vec<u8>,
    pub files: Files<Global>,
    pub expected: Expected,
    pub profile: Profile,
    /// The most bytes that a script may have.
    pub bytes: usize,
    /// The most states through which orders are tried.
    pub states: usize,
    /// The most events that a run on one hart may have; 0: as many as it takes.
    pub turns: u64,
    /// Whether a script that passes is run in every way, too.
    pub every_way: bool,
}

impl Loaded {
    /// The test, as a script is judged by it.
    pub fn task(&self) -> Task<'_>
        ensures { IsTaskOf self.now result }
    {
        Task {
            profile: self.profile,
            stdin: self.stdin.as_slice(),
            files: &self.files,
            expected: &self.expected,
            bytes: self.bytes,
            states: self.states,
            turns: self.turns,
        }
    }
}
