//! The program's host, where a suite and the files that it names are all that it reads.
ghost use Rattle.std.specs.Prelude.{◌≡◌, ◌≢◌, ◌<◌, ◌≤◌, Err, IfOk, length, vec_len};
ghost use Rattle.std.specs.List.{find};
ghost use Rattle.std.specs.Option.{option_copied};
ghost use Rattle.std.specs.Str.{bytes_eq};

use crate::script_host::copied;
use crate::task::Given;
use std::alloc::Global;
use xvsh_read::{Host, HostFault};

/// A host that gives a suite as its standard input, and has these files, of two of one name the first.
#[derive(Drop)]
pub(crate) struct SuiteHost<'a> {
    pub(crate) suite: &'a [u8],
    pub(crate) files: &'a [Given<'a>],
}

// Whether the file has this name.
fn is_named(file: &Given<'_>, path: &str) -> bool
    ensures { result ≡ bytes_eq file.now.name.now path.now }
{
    file.name == path.as_bytes()
}

// The first of the files that has this name.
fn first_named<'a>(files: &'a [Given<'a>], path: &str) -> Option<&'a Given<'a>>
    ensures { option_copied result ≡ find (λ file. bytes_eq file.name.now path.now) files.now }
{
    files.iter().find(|file| is_named(*file, path))
}

impl Host for SuiteHost<'_> {
    ghost use Rattle.std.specs.Prelude.{Some};
    ghost use Rattle.embed.specs.Grades.{file_in};

    ghost input = { λ host. Some host.suite.now };

    ghost file = { λ host path. file_in host.files.now path };

    fn read_input(&mut self, alloc: Global, limit: usize) -> Result<Vec<u8>, HostFault> {
        copied(alloc, self.suite, limit)
    }

    fn read_path(&mut self, alloc: Global, path: &str, limit: usize) -> Result<Vec<u8>, HostFault> {
        match first_named(self.files, path) {
            Some(file) => copied(alloc, file.bytes, limit),
            None => Err(HostFault::Unreadable),
        }
    }
}
