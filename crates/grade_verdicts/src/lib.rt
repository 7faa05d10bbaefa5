//! What a test says of a script: its verdict, and why.
#![tactic(auto)]

mod agreeing;
mod copying;
mod differing;
mod expected;
mod judging;
mod sameness;
mod searching;
mod verdict;

pub use copying::copy_of;
pub use differing::first_difference;
pub use expected::{Expected, ExpectedFile, Task};
pub use judging::{judge, judge_script, read_script, turns_of};
pub use sameness::is_same_task;
pub use verdict::{Difference, Place, Race, Refusal, Verdict, passes};
