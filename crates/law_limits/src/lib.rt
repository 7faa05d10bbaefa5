//! What a script needs at most of xv6's tables, whatever the order of its processes, with `&` too: laws, no code.
#![tactic(auto)]

pub mod behind;
pub mod forks;
pub mod opens;
pub mod sizes;
