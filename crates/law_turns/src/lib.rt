//! Which turns give way, and that a list of kernels that is closed under the others has every outcome: laws, no code.
#![tactic(auto)]

pub mod entry_numbers;
pub mod every_outcome;
pub mod exits;
pub mod forks;
pub mod giving_way;
pub mod last_closes;
pub mod orders;
pub mod private_turns;
pub mod read_ends;
pub mod slot_numbers;
pub mod waits;
pub mod write_ends;
