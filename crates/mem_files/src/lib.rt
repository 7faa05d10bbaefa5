//! Files in memory: a finite map from names to bytes, with xv6's limits on names and sizes.
//!
//! `Files` is the map; `laws` says what holds of it, so that no caller cites how it is kept.
#![tactic(auto)]

mod entry;
mod fault;
pub mod laws;
mod name;
mod search;
mod set;

pub use fault::FilesFault;
pub use name::is_openable;
pub use set::{Files, MAX_FILES, MAX_SIZE};
