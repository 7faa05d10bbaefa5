//! The simulator for programs in C, and in what calls C: `include/xvsh.h` declares these functions.
#![tactic(auto)]

mod answer;
mod asks;
mod draws;
mod explores;
mod grades;
mod handing;
mod looks;
mod objects;
mod plain;
mod runs;
mod version;
mod words;

pub use answer::Answer;
pub use words::FaultWords;
