//! The files of a task.
ghost use Rattle.std.specs.Prelude.{◌≡◌, ◌+◌, ◌<◌, ℕ, None, OnOk, IfOk, IfErr, length, ◌^◌};
ghost use Rattle.mem_files.specs.Files.{files};
ghost use Rattle.mem_files.specs.Listing.{with_entry};
ghost use Rattle.embed.specs.Starting.{ArePut, IsFileFault, IsFilesFault, of_files};

use crate::fault::StartFault;
use crate::task::Given;
use mem_files::{Files, FilesFault};
use std::alloc::Allocator;

// Why the file of this number can't be put.
fn of_files(number: usize, fault: FilesFault) -> StartFault
    ensures { result ≡ of_files number fault }
{
    match fault {
        FilesFault::BadName => StartFault::BadName(number),
        FilesFault::FullSize => StartFault::FileTooLong(number),
        FilesFault::FullFiles => StartFault::TooManyFiles(number),
        FilesFault::Missing | FilesFault::Memory | FilesFault::Gap => StartFault::Memory,
    }
}

// Puts the file of this number to those before it, none of which has its name.
fn put_file<A: Allocator + Copy>(
    store: &mut Files<A>,
    file: &Given<'_>,
    number: usize,
) -> Result<(), StartFault>
    ensures new { OnOk result (files store.old file.now.name.now ≡ None) }
    ensures put { OnOk result (store.new ≡ with_entry store.old file.now.name.now file.now.bytes.now) }
    ensures fault { IfErr result (IsFileFault store.old file.now number) }
{
    if store.get(file.name).is_some() {
        return Err(StartFault::TakenName(number));
    }
    match store.put(file.name, file.bytes) {
        Ok(()) => Ok(()),
        Err(fault) => Err(of_files(number, fault)),
    }
}

/// The set of these files, which have different names.
///
/// The fault is that of the first which can't be put to those before it.
pub fn put_all<A: Allocator + Copy>(alloc: A, given: &[Given<'_>]) -> Result<Files<A>, StartFault>
    ensures put { IfOk result (ArePut given.now) }
    ensures fault { IfErr result (IsFilesFault given.now) }
{
    let mut store = Files::new(alloc);
    for (i, file) in given.iter().enumerate() {
        if let Err(fault) = put_file(&mut store, file, i + 1) {
            return Err(fault);
        }
    }
    Ok(store)
}
