//! What the program writes of a run by processes is what the script means, and what `plain` writes: laws, no code.
#![tactic(auto)]

pub mod laws;
