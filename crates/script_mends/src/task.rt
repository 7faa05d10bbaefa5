//! What scripts are tried on.

use mem_files::Files;
use script_load::Profile;
use std::alloc::Global;

/// What a script is to be settled on.
#[derive(Clone, Copy)]
pub struct Task<'t> {
    /// What `>>` means.
    pub profile: Profile,
    /// The standard input.
    pub stdin: &'t [u8],
    pub files: &'t Files<Global>,
}
