//! `xvsh grade`: the tests of a suite on scripts, and a report of what they say.
//!
//! Scripts are read and judged a batch at a time, so that memory doesn't grow with how many there are, but for the report.
#![tactic(auto)]

mod batches;
mod ending;
mod grading;
mod marks;
mod plan;
mod reporting;
mod request;

pub use ending::run_grade;
pub use grade_tests::{GradeFault, Loaded};
pub use grading::grade;
pub use marks::{Mark, Piece};
pub use reporting::report_of;
pub use request::{Form, GradeRequest, Grading, Report};
