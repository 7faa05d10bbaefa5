//! Runs of a script by its processes: definitions, no code.
#![tactic(auto)]
