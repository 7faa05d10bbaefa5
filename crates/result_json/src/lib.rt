//! Results as one object of JSON: what the program's text says, as values that other programs read.
#![tactic(auto)]

mod check;
mod explain;
mod faults;
mod files;
mod head;
mod plain;
mod reasons;
mod run;
mod words;

pub use check::{check_result, counted_result, room_result};
pub use explain::{ExplainValues, explain_result};
pub use faults::{FaultPlace, FaultValues, fault_result, fault_result_of};
pub use files::write_files;
pub use head::begin_result;
pub use plain::plain_result;
pub use run::{RunValues, Verdict, run_result, write_dead};
pub use words::full_word;
