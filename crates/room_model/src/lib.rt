//! Bounds on what a script needs: processes, descriptors, entries, files and their sizes, also behind `&`.
#![tactic(auto)]

mod forks;
pub mod laws;

pub use forks::has_few_forks;
