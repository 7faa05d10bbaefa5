//! How a run ends whose files are made in a folder.
ghost use Rattle.std.specs.Prelude.{◌≡◌, ◌++◌, ◌<◌, ℕ, List, Option, IfErr, IfOk, IfSome, codes, length, string_bytes};
ghost use Rattle.xvsh_read.specs.Path.{Path};
ghost use Rattle.xvsh_ends.specs.Ends.{Asked, IsDue, asks_filed};
ghost use Rattle.xvsh_ends.specs.Requests.{filed_asked};
ghost use Rattle.xvsh_ends.specs.Filing.{IsFilingFault};

use crate::ending::{Ending, report_no_memory, report_untraced};
use crate::witnesses::{WitnessFault, make_folder, write_file};
use mem_files::Files;
use std::alloc::{AllocError, Global};
use std::str;
use xvsh_read::{Traces, Unwritten};

// The path of the file of this name.
fn path_of(alloc: Global, folder: &str, name: &str) -> Result<String, AllocError>
    ensures { IfOk result (λ path. string_bytes path ≡ folder.now ++ (codes "/" ++ name.now)) }
{
    format!(in alloc; "{folder}/{name}")
}

// That the folder can't be written, or that memory for its path is refused.
fn unwritten_folder(alloc: Global, folder: &str) -> WitnessFault
    ensures { IsFilingFault folder.now result }
{
    match String::from_str(alloc, folder) {
        Ok(path) => WitnessFault::Unwritten(path),
        Err(_) => WitnessFault::Memory,
    }
}

// Makes the file of this name, which can't be made where it isn't text in UTF-8.
fn make_file<T: Traces>(
    alloc: Global,
    traces: &mut T,
    folder: &str,
    name: &[u8],
    bytes: &[u8],
) -> Result<(), WitnessFault>
    ensures { IfErr result (IsFilingFault folder.now) }
{
    let Ok(text) = str::from_utf8(name) else {
        return Err(unwritten_folder(alloc, folder));
    };
    let path = path_of(alloc, folder, text)?;
    match write_file(traces, path.as_str(), bytes) {
        Ok(()) => Ok(()),
        Err(Unwritten) => Err(WitnessFault::Unwritten(path)),
    }
}

// Makes each file in the folder, which is made if it isn't there.
fn make_files<T: Traces>(
    alloc: Global,
    traces: &mut T,
    folder: &str,
    files: &Files<Global>,
) -> Result<(), WitnessFault>
    ensures { IfErr result (IsFilingFault folder.now) }
{
    make_folder(alloc, traces, folder)?;
    for place in 0..files.count() {
        if let Some(name) = files.name_at(place) {
            let bytes = files.get(name).unwrap_or(&[]);
            make_file(alloc, traces, folder, name, bytes)?;
        }
    }
    Ok(())
}

// Makes the files that a run left, if one did.
fn make_left<T: Traces>(
    alloc: Global,
    ending: &Ending,
    folder: &str,
    traces: &mut T,
) -> Result<(), WitnessFault>
    ensures { IfErr result (IsFilingFault folder.now) }
{
    match &ending.left {
        Some(files) => make_files(alloc, traces, folder, files),
        None => Ok(()),
    }
}

// Makes the files in the folder at this path of a run that has ended, and returns how the program ends then.
fn filed_at<T: Traces>(alloc: Global, ending: Ending, folder: &str, traces: &mut T) -> Ending
    ensures { (input : Option (List ℕ)) (file : Path → Option (List ℕ)) (what : Asked) → IsDue input file what ending → IsDue input file (asks_filed what folder.now) result }
{
    match make_left(alloc, &ending, folder, traces) {
        Ok(()) => ending,
        Err(WitnessFault::Unwritten(place)) => report_untraced(alloc, place.as_str()),
        Err(WitnessFault::Memory) => report_no_memory(alloc),
    }
}

/// Makes the files that a run left, if there is to be a folder of them, and returns how the program ends then: as before, or with
/// the report that one of them can't be written.
pub(crate) fn filed<T: Traces>(
    alloc: Global,
    ending: Ending,
    files_to: Option<&str>,
    traces: &mut T,
) -> Ending
    ensures { (input : Option (List ℕ)) (file : Path → Option (List ℕ)) (what : Asked) → IsDue input file what ending → IsDue input file (filed_asked files_to.entry what) result }
{
    match files_to {
        Some(folder) => filed_at(alloc, ending, folder, traces),
        None => ending,
    }
}
