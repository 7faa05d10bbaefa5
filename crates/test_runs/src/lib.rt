//! Tests of runs, of replays and of laws at whole runs.
#![tactic(auto)]

#[cfg(test)]
mod closed;
#[cfg(test)]
mod facts;
#[cfg(test)]
mod given;
#[cfg(test)]
mod memory;
#[cfg(test)]
mod reading;
#[cfg(test)]
mod threads;
#[cfg(test)]
mod whole;
