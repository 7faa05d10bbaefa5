//! What `grade` is asked for, what it answers, and who is shown how far it is.

ghost use Rattle.std.specs.Prelude.{◌≡◌};

use grade_report::Sum;
use xvsh_read::Host;

/// How the report is written.
#[derive(Clone, Copy, Debug, PartialEq, Eq)]
pub enum Form {
    /// A text for people.
    Table,
    /// One object of JSON.
    Json,
    /// The Test Anything Protocol, version 13.
    Tap,
    /// Gradescope's `results.json`.
    Gradescope,
}

/// The tests of a suite on scripts.
#[derive(Clone, Copy, Debug)]
pub struct GradeRequest<'a> {
    /// The path of the suite; `-` is standard input.
    pub suite: &'a str,
    /// The paths of the scripts on which the tests without a script of their own are run; `-` is standard input.
    pub scripts: &'a [&'a str],
    pub form: Form,
    /// How many threads judge.
    pub threads: usize,
    /// The most states through which orders are tried, whatever the suite says.
    pub states: Option<u64>,
    /// Whether a text for people is in colour.
    pub is_coloured: bool,
}

/// What is printed, the points and how many tests passed, whether there is a verdict and each is a pass, and whether each test was
/// judged, which one isn't where memory is refused to it.
#[derive(Debug, Drop)]
pub struct Report {
    pub text: Vec<u8>,
    pub sum: Sum,
    pub has_passed: bool,
    pub is_judged: bool,
}

/// Who is shown how far the grading is.
pub trait Grading: Host {
    /// So many verdicts of so many are there.
    fn graded(&mut self, done: usize, of: usize)
        ensures stays { Self.file self.new ≡ Self.file self.old };

    /// No more are to come.
    fn ended(&mut self);
}
