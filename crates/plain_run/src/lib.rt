//! Runs a script by its meaning, and says whether it is settled.
#![tactic(auto)]

mod fault;
mod filter;
mod grep;
mod head;
mod line_verdicts;
mod name_lines;
mod ordered;
mod outcome;
mod output;
mod programs;
mod reason;
mod run;
mod store;
mod tee;
mod told;
mod verdict;
mod wc;

pub use fault::PlainFault;
pub use outcome::{Plain, Reasoned};
pub use programs::run_program;
pub use reason::Reason;
pub use run::{plain, plain_with_reasons};
pub use store::{find, give};
