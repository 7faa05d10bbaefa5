//! Tests alone: the parts below the kernel: what no clause and no row says of lines, programs, files and their sizes, pipes and the table of processes.
#![tactic(auto)]

#[cfg(test)]
mod calls;
#[cfg(test)]
mod files;
#[cfg(test)]
mod forks;
#[cfg(test)]
mod lines;
#[cfg(test)]
mod memory;
#[cfg(test)]
mod procs;
#[cfg(test)]
mod sizes;
