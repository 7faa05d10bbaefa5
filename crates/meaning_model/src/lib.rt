//! What commands and scripts mean: the program functions, the recursive meaning, which scripts are
//! settled, and where a meaning goes past the limits on files. All of it stands in `specs/`, and its
//! laws are here.
#![tactic(auto)]

pub mod laws;
