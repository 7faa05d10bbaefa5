//! The tests of a suite, with all that they name.

ghost use Rattle.std.specs.Prelude.{◌≡◌, ℕ, List, IfOk, OnOk, None, MatchOption, IsSomeAnd};
ghost use Rattle.std.specs.List.{AllZip};
ghost use Rattle.mem_files.specs.Listing.{with_entry};
ghost use Rattle.grade_tests.specs.Loads.{AreBytesOf, ArePutFrom, IsExpectedFrom, IsLoaded, most_states};

use crate::fault::GradeFault;
use crate::sources::{Place, Spot};
use crate::test::Loaded;
use grade_verdicts::{Expected, ExpectedFile};
use mem_files::{Files, FilesFault, MAX_FILES, is_openable};
use std::alloc::Global;
use std::str;
use suite_file::{NamedSource, Source, SuiteTest, Wanted};
use xvsh_read::{Fault, Host, profile_of};

// The name of a file, which is a text in the suite.
fn shown(name: &[u8]) -> &str {
    str::from_utf8(name).unwrap_or("")
}

// Why a file of a test can't be one of a script.
fn file_fault<'a>(spot: &Spot<'a, '_>, table: &str, name: &str, what: &str) -> GradeFault<'a> {
    match format!(in spot.alloc; "`{name}` {what}") {
        Ok(sentence) => spot.fault(table, name, sentence),
        Err(_) => GradeFault::Common(Fault::Memory),
    }
}

const BAD_NAME: &str = "can be no file's name: it has to have 1 to 14 bytes, and no `/`";

// Puts a file of the test into the files at the beginning.
fn put_file<'a, H: Host>(
    spot: &Spot<'a, '_>,
    host: &mut H,
    file: &NamedSource,
    files: &mut Files<Global>,
) -> Result<(), GradeFault<'a>>
    ensures put { OnOk result ((bytes : List ℕ) × AreBytesOf (H.file host.old) spot.now.suite.now file.now.source bytes × (files.new ≡ with_entry files.old file.now.name.items bytes)) }
    ensures stays { (H.input host.new ≡ H.input host.old) × (H.file host.new ≡ H.file host.old) }
{
    let text = shown(file.name.as_slice());
    let bytes = spot.bytes_of(host, &Place::file("files", text), &file.source)?;
    match files.put(file.name.as_slice(), bytes.as_slice()) {
        Ok(()) => Ok(()),
        Err(FilesFault::BadName) => Err(file_fault(spot, "files", text, BAD_NAME)),
        Err(FilesFault::FullFiles) => Err(file_fault(spot, "files", text, "is one too many")),
        Err(FilesFault::FullSize) => Err(file_fault(spot, "files", text, "is too long")),
        Err(FilesFault::Missing | FilesFault::Memory | FilesFault::Gap) => {
            Err(GradeFault::Common(Fault::Memory))
        }
    }
}

// The files at the beginning.
fn files_of<'a, H: Host>(
    spot: &Spot<'a, '_>,
    host: &mut H,
    sources: &[NamedSource],
) -> Result<Files<Global>, GradeFault<'a>>
    ensures put { IfOk result (ArePutFrom (H.file host.old) spot.now.suite.now sources.now) }
    ensures stays { (H.input host.new ≡ H.input host.old) × (H.file host.new ≡ H.file host.old) }
{
    let mut files = Files::new(spot.alloc);
    for source in sources {
        put_file(spot, host, source, &mut files)?;
    }
    Ok(files)
}

// A file that is expected.
fn expected_file<'a, H: Host>(
    spot: &Spot<'a, '_>,
    host: &mut H,
    file: &NamedSource,
) -> Result<ExpectedFile, GradeFault<'a>>
    ensures expected { IfOk result (IsExpectedFrom (H.file host.old) spot.now.suite.now file.now) }
    ensures stays { (H.input host.new ≡ H.input host.old) × (H.file host.new ≡ H.file host.old) }
{
    let text = shown(file.name.as_slice());
    if !is_openable(file.name.as_slice()) {
        return Err(file_fault(spot, "expect", text, BAD_NAME));
    }
    let bytes = spot.bytes_of(host, &Place::file("expect", text), &file.source)?;
    let name = Vec::from_slice(spot.alloc, file.name.as_slice())?;
    Ok(ExpectedFile { name, bytes })
}

// The files that are expected.
fn expected_files<'a, H: Host>(
    spot: &Spot<'a, '_>,
    host: &mut H,
    sources: &[NamedSource],
) -> Result<Vec<ExpectedFile>, GradeFault<'a>>
    ensures expected { IfOk result (λ files. AllZip (IsExpectedFrom (H.file host.old) spot.now.suite.now) sources.now files.items) }
    ensures stays { (H.input host.new ≡ H.input host.old) × (H.file host.new ≡ H.file host.old) }
{
    let mut files = Vec::new(spot.alloc);
    for source in sources {
        let file = expected_file(spot, host, source)?;
        if files.len() >= MAX_FILES {
            let name = shown(file.name.as_slice());
            return Err(file_fault(spot, "expect", name, "is one too many"));
        }
        files.push(file)?;
    }
    Ok(files)
}

// The test's own script, if it has one.
fn script_of<'a, H: Host>(
    spot: &Spot<'a, '_>,
    host: &mut H,
    script: &Option<Source>,
) -> Result<Option<Vec<u8>>, GradeFault<'a>>
    ensures script { IfOk result (λ own. MatchOption script.now (own ≡ None) (λ source. IsSomeAnd own (λ bytes. AreBytesOf (H.file host.old) spot.now.suite.now source bytes.items))) }
    ensures stays { (H.input host.new ≡ H.input host.old) × (H.file host.new ≡ H.file host.old) }
{
    match script {
        Some(source) => Ok(Some(spot.bytes_of(host, &Place::script(), source)?)),
        None => Ok(None),
    }
}

// What is expected.
fn expected_of<'a, H: Host>(
    spot: &Spot<'a, '_>,
    host: &mut H,
    wanted: &Wanted,
) -> Result<Expected, GradeFault<'a>>
    ensures output { IfOk result (λ expected. AreBytesOf (H.file host.old) spot.now.suite.now wanted.now.output expected.out.items) }
    ensures expect { IfOk result (λ expected. AllZip (IsExpectedFrom (H.file host.old) spot.now.suite.now) wanted.now.files.items expected.files.items) }
    ensures stays { (H.input host.new ≡ H.input host.old) × (H.file host.new ≡ H.file host.old) }
{
    let out = spot.bytes_of(host, &Place::output(), &wanted.output)?;
    let files = expected_files(spot, host, wanted.files.as_slice())?;
    Ok(Expected { out, files })
}

// Through how many states a test that allows so many tries orders, where there may be an upper bound for all tests.
fn states_of(own: usize, most: Option<u64>) -> usize
    ensures { result ≡ most_states most own }
{
    match most {
        Some(most) if most < own as u64 => most as usize,
        Some(_) | None => own,
    }
}

/// The test, with all bytes that it names; it tries orders through at most so many states.
pub fn load<'a, H: Host>(
    spot: &Spot<'a, '_>,
    host: &mut H,
    test: &SuiteTest,
    most: Option<u64>,
) -> Result<Loaded, GradeFault<'a>>
    ensures loaded { IfOk result (IsLoaded (H.file host.old) spot.now.suite.now most test.now) }
    ensures stays { (H.input host.new ≡ H.input host.old) × (H.file host.new ≡ H.file host.old) }
{
    let script = script_of(spot, host, &test.given.script)?;
    let stdin = spot.bytes_of(host, &Place::input(), &test.given.stdin)?;
    let files = files_of(spot, host, test.given.files.as_slice())?;
    let expected = expected_of(spot, host, &test.wanted)?;
    let limits = test.limits;
    Ok(Loaded {
        name: String::from_str(spot.alloc, test.name.as_str())?,
        points: test.points,
        script,
        stdin,
        files,
        expected,
        profile: profile_of(limits.appends),
        bytes: limits.bytes,
        states: states_of(limits.states, most),
        turns: limits.turns,
        every_way: limits.every_way,
    })
}

/// The tests, each with all bytes that it names, in order; each tries orders through at most so many states.
pub fn load_all<'a, H: Host>(
    spot: &Spot<'a, '_>,
    host: &mut H,
    tests: &[SuiteTest],
    most: Option<u64>,
) -> Result<Vec<Loaded>, GradeFault<'a>>
    ensures loaded { IfOk result (λ loaded. AllZip (IsLoaded (H.file host.old) spot.now.suite.now most) tests.now loaded.items) }
    ensures stays { (H.input host.new ≡ H.input host.old) × (H.file host.new ≡ H.file host.old) }
{
    let mut loaded = Vec::new(spot.alloc);
    for test in tests {
        let own = Spot {
            test: loaded.len().saturating_add(1),
            ..*spot
        };
        let one = load(&own, host, test, most)?;
        loaded.push(one)?;
    }
    Ok(loaded)
}
