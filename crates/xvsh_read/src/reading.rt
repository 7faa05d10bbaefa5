//! What is read at the paths of the command line.
ghost use Rattle.std.specs.Prelude.{◌≡◌, ◌≢◌, ◌==◌, ℕ, List, None, codes, OnOk, IfOk, IfErr};
ghost use Rattle.std.specs.List.{list_any};
ghost use Rattle.mem_files.specs.Files.{files};
ghost use Rattle.mem_files.specs.Listing.{with_entry};
ghost use Rattle.xvsh_read.specs.Path.{IsLastPart, IsNameOf, can_be_given, place_of};
ghost use Rattle.xvsh_read.specs.Reading.{Agree, told_at, ArePut, IsReadFault, IsFileFault, IsFilesFault};

use crate::fault::Fault;
use crate::host::Host;
use mem_files::{Files, MAX_SIZE};
use memchr::memrchr;
use std::alloc::Global;

/// The most bytes that a script, and a standard input, may have (own).
pub const MAX_INPUT: usize = 1_048_576;

/// The path that stands for standard input.
pub const STDIN: &str = "-";

/// The bytes at a path, of which there may be as many as the limit; those of standard input for `-`.
pub fn read<'a, H: Host>(
    alloc: Global,
    host: &mut H,
    path: &'a str,
    limit: usize,
) -> Result<Vec<u8>, Fault<'a>>
    ensures bytes { IfOk result (λ bytes. Agree (told_at (H.input host.old) (H.file host.old) path.now) bytes.items) }
    ensures fault { IfErr result (IsReadFault limit (told_at (H.input host.old) (H.file host.old) path.now) path.now) }
    ensures files_stay { H.file host.new ≡ H.file host.old }
    ensures input_stays { path.now ≢ codes "-" → H.input host.new ≡ H.input host.old }
{
    let bytes = if path == STDIN {
        host.read_input(alloc, limit)
    } else {
        host.read_path(alloc, path, limit)
    };
    match bytes {
        Ok(bytes) => Ok(bytes),
        Err(fault) => Err(Fault::at_path(path, fault)),
    }
}

// The part of a path after its last `/`.
fn last_part(path: &str) -> &[u8]
    ensures { IsLastPart path.now result.now }
{
    let bytes = path.as_bytes();
    match memrchr(b'/', bytes) {
        Some(slash) => &bytes[slash + 1..],
        None => bytes,
    }
}

fn has_slash(name: &[u8]) -> bool
    ensures { result ≡ list_any (λ byte. byte == 47) name.now }
{
    name.iter().any(|byte| *byte == b'/')
}

// Whether a name can stand before a `=`: it isn't empty, and has no `/`.
fn can_be_given(name: &[u8]) -> bool
    ensures { result ≡ can_be_given name.now }
{
    0 < name.len() && !has_slash(name)
}

// What a FILE of the command line stands for.
#[derive(Clone, Copy)]
struct Given<'a> {
    // The name of the script's file.
    name: &'a [u8],
    // The path of its bytes.
    path: &'a str,
}

// What a FILE stands for: `NAME=PATH` the bytes at PATH under the name NAME, where NAME isn't empty and has no `/`, and any other
// path the bytes there under the part after its last `/`.
fn given_by(word: &str) -> Given<'_>
    ensures name { IsNameOf word.now result.name.now }
    ensures place { result.path.now ≡ place_of word.now }
{
    if let Some((name, path)) = word.split_once('=') {
        let name = name.as_bytes();
        if can_be_given(name) {
            return Given { name, path };
        }
    }
    Given {
        name: last_part(word),
        path: word,
    }
}

// Reads a file and puts it into the script's files, none of which has its name.
fn add_file<'a, H: Host>(
    alloc: Global,
    host: &mut H,
    path: &'a str,
    given: &mut Files<Global>,
) -> Result<(), Fault<'a>>
    ensures put { OnOk result ((name : List ℕ) × (bytes : List ℕ) × IsNameOf path.now name
        × (files given.old name ≡ None) × Agree (H.file host.old (place_of path.now)) bytes × (given.new ≡ with_entry given.old name bytes)) }
    ensures fault { IfErr result (IsFileFault (H.file host.old) given.old path.now) }
    ensures stays { (H.input host.new ≡ H.input host.old) × (H.file host.new ≡ H.file host.old) }
{
    let file = given_by(path);
    let bytes = match host.read_path(alloc, file.path, MAX_SIZE) {
        Ok(bytes) => bytes,
        Err(fault) => return Err(Fault::at_path(path, fault)),
    };
    if given.get(file.name).is_some() {
        return Err(Fault::TakenName(path));
    }
    match given.put(file.name, bytes.as_slice()) {
        Ok(()) => Ok(()),
        Err(fault) => Err(Fault::of_file(path, fault)),
    }
}

// Reads the files in order, each before the next. No two have one name.
pub fn read_files<'a, H: Host>(
    alloc: Global,
    host: &mut H,
    paths: &[&'a str],
) -> Result<Files<Global>, Fault<'a>>
    ensures put { IfOk result (ArePut (H.file host.old) paths.now) }
    ensures fault { IfErr result (IsFilesFault (H.file host.old) paths.now) }
    ensures stays { (H.input host.new ≡ H.input host.old) × (H.file host.new ≡ H.file host.old) }
{
    let mut given = Files::new(alloc);
    for path in paths {
        add_file(alloc, host, path, &mut given)?;
    }
    Ok(given)
}
