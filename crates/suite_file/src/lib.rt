//! Suites of tests, as TOML files have them.
#![tactic(auto)]

mod entries;
mod fault;
mod keys;
mod part;
mod places;
mod reading;
mod sources;
mod suite;
mod test_tables;

pub use fault::SuiteFault;
pub use places::{Key, line_of};
pub use reading::read_suite;
pub use suite::{
    Given, Limits, MOST_BYTES, MOST_POINTS, MOST_STATES, MOST_TURNS, NamedSource, Source, Suite,
    SuiteTest, Wanted,
};
