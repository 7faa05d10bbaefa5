//! From the words of a command line to how the program ends, over any host.
#![tactic(auto)]

mod driver;
mod hints;
mod parsing;
mod request;

pub use driver::drive;
pub use parsing::{MAX_JOBS, parsed_words};
pub use request::{OWN_INPUT, STATES, inputs_of, request_of};
pub use xvsh_ends::Request;
pub use xvsh_explores::Watch;
pub use xvsh_read::{Console, Inputs, NOTHING};
