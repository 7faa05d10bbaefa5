//! The tests of a suite, each with all that it names.
#![tactic(auto)]

mod fault;
mod loading;
mod paths;
mod reading;
mod sources;
mod test;

pub use fault::GradeFault;
pub use reading::{Asked, read_tests};
pub use test::Loaded;
