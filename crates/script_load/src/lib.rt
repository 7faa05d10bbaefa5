//! Reads a script into its lines.
#![tactic(auto)]

mod cutting;
mod fault;
pub mod laws;
mod limits;
mod line;
mod loading;
mod profile;
mod script;

pub use fault::{LineTooLarge, LoadFault};
pub use limits::MAX_TURNS;
pub use line::{Line, Lines};
pub use loading::{load, load_with};
pub use profile::Profile;
pub use script::Script;
