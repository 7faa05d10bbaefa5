//! Tests alone, but for the machine `walker`: a kernel of which one of its requests for memory is refused, each in turn.
#![tactic(auto)]

#[cfg(test)]
mod memory;
pub mod walker;
