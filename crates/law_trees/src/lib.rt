//! What scripts come to by their meaning, and by the tree machine: laws, no code. Each module has the laws of one subject.
#![tactic(auto)]

pub mod programs;
pub mod tree_ends;
pub mod trees;
