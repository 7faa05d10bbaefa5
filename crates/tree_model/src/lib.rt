//! The tree machine, its programs, and the final value of what is left to run: definitions, no code.
#![tactic(auto)]
