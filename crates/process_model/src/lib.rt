//! The tree of processes of a kernel, and when it is in the state that the tree machine has: definitions. There is no code
//! here.
#![tactic(auto)]

pub mod laws;
