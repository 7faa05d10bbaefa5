//! A suite.

/// The most bytes that a script may have, and how many it may have where a test doesn't say (own).
pub const MOST_BYTES: usize = 1_048_576;

/// The most states through which a test may have orders tried (own).
pub const MOST_STATES: usize = 10_000_000;

/// The most states through which orders are tried, where neither the test nor the suite says (own).
pub const STATES: usize = 40_000;

/// The most events that a test may allow a run (own).
pub const MOST_TURNS: u64 = 1_000_000_000;

/// The most seconds that a suite may give to a script (own). No proved code has a clock: they are for other readers of the suite.
pub const MOST_SECONDS: u64 = 1_000_000;

/// The most points of a test (own).
pub const MOST_POINTS: u64 = 1_000_000;

/// Where bytes come from (own).
#[derive(Debug, Drop)]
pub enum Source {
    /// They are in the suite.
    Inline(Vec<u8>),
    /// They are those of the file at a path, which begins at the suite's folder unless it begins with `/`.
    Beside(String),
}

/// A file of a test (own).
#[derive(Debug, Drop)]
pub struct NamedSource {
    pub name: Vec<u8>,
    pub source: Source,
}

/// How a test judges scripts (own).
#[derive(Clone, Copy, Debug, PartialEq, Eq)]
pub struct Limits {
    /// Whether `>>` appends.
    pub appends: bool,
    /// The most bytes that a script may have.
    pub bytes: usize,
    /// The most states through which orders are tried.
    pub states: usize,
    /// The most events that a run on one hart may have; 0: as many as it takes.
    pub turns: u64,
    /// Whether a script that passes is run in every way, too.
    pub every_way: bool,
}

/// What a test gives to a script (own).
#[derive(Debug, Drop)]
pub struct Given {
    /// The test's own script; `None` where it is run on each script that is graded.
    pub script: Option<Source>,
    /// The standard input.
    pub stdin: Source,
    /// The files at the beginning, in byte order of their names.
    pub files: Vec<NamedSource>,
}

/// What a test wants of a script (own).
#[derive(Debug, Drop)]
pub struct Wanted {
    /// The standard output.
    pub output: Source,
    /// The files at the end, in byte order of their names.
    pub files: Vec<NamedSource>,
}

/// A test of a suite (own).
#[derive(Debug, Drop)]
pub struct SuiteTest {
    pub name: String,
    pub points: u64,
    pub limits: Limits,
    pub given: Given,
    pub wanted: Wanted,
}

/// A suite: tests, of which no two have one name (own).
#[derive(Debug, Drop)]
pub struct Suite {
    pub tests: Vec<SuiteTest>,
}
