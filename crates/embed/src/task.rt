//! What a call of the library is about.

ghost use Rattle.std.specs.Prelude.{◌≡◌};
ghost use Rattle.embed.specs.Profiles.{profile_by};

use script_load::Profile;

/// A file that a program hands in: its name, and its bytes.
#[repr(C)]
#[derive(Clone, Copy)]
pub struct Given<'a> {
    pub name: &'a [u8],
    pub bytes: &'a [u8],
}

/// What a call is about: a script with all that it begins with.
#[repr(C)]
#[derive(Clone, Copy)]
pub struct Task<'a> {
    /// The script, in lines with LF.
    pub script: &'a [u8],
    /// The standard input.
    pub stdin: &'a [u8],
    /// The files, no two of one name.
    pub files: &'a [Given<'a>],
    /// The most bytes of memory that the run may ask for in all, counting none that is given back; 0 for no such bound.
    pub budget: u64,
    /// 0 where `>>` writes over a file from its beginning, as xv6's; any other number where it appends.
    pub appends: u32,
}

/// What `>>` means in a task.
pub fn profile_by(appends: u32) -> Profile
    ensures { result ≡ profile_by appends }
{
    if appends == 0 {
        Profile::Xv6
    } else {
        Profile::Append
    }
}
