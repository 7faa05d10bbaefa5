//! Tests of what is printed: objects, partings, pages and grades.
#![tactic(auto)]

#[cfg(test)]
mod full;
#[cfg(test)]
mod given;
#[cfg(test)]
mod graded;
#[cfg(test)]
mod host;
#[cfg(test)]
mod memory;
#[cfg(test)]
mod worded;
