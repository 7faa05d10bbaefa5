//! Bytes that a suite names.

ghost use Rattle.std.specs.Prelude.{◌≡◌, ℕ, List, IfOk, string_bytes};
ghost use Rattle.xvsh_read.specs.Reading.{Agree};
ghost use Rattle.grade_tests.specs.Loads.{AreBytesOf};
ghost use Rattle.grade_tests.specs.Paths.{IsPlaceOf};

use crate::fault::GradeFault;
use crate::paths::path_beside;
use mem_files::MAX_SIZE;
use std::alloc::Global;
use suite_file::{Key, Source, line_of};
use xvsh_read::{Fault, Host, HostFault, MAX_INPUT};

/// The most bytes of an output that is expected (own).
const MAX_OUTPUT: usize = 16_777_216;

/// Where bytes stand in a test: the table and the key of those that are in the suite, the key of those in a file, and how many
/// there may be.
#[derive(Clone, Copy)]
pub(crate) struct Place<'k> {
    table: &'k str,
    key: &'k str,
    file_key: &'k str,
    limit: usize,
}

impl<'k> Place<'k> {
    /// The test's own script.
    pub(crate) fn script() -> Place<'static> {
        Place {
            table: "",
            key: "script",
            file_key: "script_file",
            limit: MAX_INPUT,
        }
    }

    /// The standard input.
    pub(crate) fn input() -> Place<'static> {
        Place {
            table: "",
            key: "input",
            file_key: "input_file",
            limit: MAX_INPUT,
        }
    }

    /// The output that is expected.
    pub(crate) fn output() -> Place<'static> {
        Place {
            table: "",
            key: "output",
            file_key: "output_file",
            limit: MAX_OUTPUT,
        }
    }

    /// The file of this name in a table.
    pub(crate) fn file(table: &'k str, name: &'k str) -> Place<'k> {
        Place {
            table,
            key: name,
            file_key: name,
            limit: MAX_SIZE,
        }
    }
}

/// A test that is loaded: the path and the text of its suite, and its number, counted from 1.
#[derive(Clone, Copy)]
pub(crate) struct Spot<'a, 's> {
    pub(crate) alloc: Global,
    pub(crate) suite: &'a str,
    pub(crate) text: &'s [u8],
    pub(crate) test: usize,
}

impl<'a> Spot<'a, '_> {
    /// What is wrong at the key of a table.
    pub(crate) fn fault(&self, table: &str, key: &str, sentence: String) -> GradeFault<'a> {
        let key = Key {
            test: self.test,
            table,
            key,
        };
        GradeFault::Suite(self.suite, line_of(self.text, &key), sentence)
    }

    // There are too many bytes.
    fn too_long(&self, place: &Place<'_>, key: &str, what: &str) -> GradeFault<'a> {
        match format!(in self.alloc; "{what} has more than {} bytes", place.limit) {
            Ok(sentence) => self.fault(place.table, key, sentence),
            Err(_) => GradeFault::Common(Fault::Memory),
        }
    }

    // The file can't be read.
    fn unreadable(&self, place: &Place<'_>, path: &str) -> GradeFault<'a> {
        match format!(in self.alloc; "cannot read {path}") {
            Ok(sentence) => self.fault(place.table, place.file_key, sentence),
            Err(_) => GradeFault::Common(Fault::Memory),
        }
    }

    // The bytes of a file beside the suite.
    fn read_beside<H: Host>(
        &self,
        host: &mut H,
        place: &Place<'_>,
        path: &str,
    ) -> Result<Vec<u8>, GradeFault<'a>>
        ensures bytes { IfOk result (λ bytes. (at : List ℕ) × IsPlaceOf self.now.suite.now path.now at × Agree (H.file host.old at) bytes.items) }
        ensures stays { (H.input host.new ≡ H.input host.old) × (H.file host.new ≡ H.file host.old) }
    {
        let path = path_beside(self.alloc, self.suite, path)?;
        match host.read_path(self.alloc, path.as_str(), place.limit) {
            Ok(bytes) => Ok(bytes),
            Err(HostFault::Unreadable) => Err(self.unreadable(place, path.as_str())),
            Err(HostFault::TooLong) => Err(self.too_long(place, place.file_key, path.as_str())),
            Err(HostFault::Memory) => Err(GradeFault::Common(Fault::Memory)),
        }
    }

    /// The bytes that the source gives.
    pub(crate) fn bytes_of<H: Host>(
        &self,
        host: &mut H,
        place: &Place<'_>,
        source: &Source,
    ) -> Result<Vec<u8>, GradeFault<'a>>
        ensures bytes { IfOk result (λ bytes. AreBytesOf (H.file host.old) self.now.suite.now source.now bytes.items) }
        ensures stays { (H.input host.new ≡ H.input host.old) × (H.file host.new ≡ H.file host.old) }
    {
        match source {
            Source::Inline(bytes) if bytes.len() > place.limit => {
                Err(self.too_long(place, place.key, "this"))
            }
            Source::Inline(bytes) => Ok(Vec::from_slice(self.alloc, bytes.as_slice())?),
            Source::Beside(path) => self.read_beside(host, place, path.as_str()),
        }
    }
}
