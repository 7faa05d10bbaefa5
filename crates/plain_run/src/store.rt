//! The files of a run, as programs read and fill them.
ghost use Rattle.std.specs.Prelude.{◌≡◌, ◌<◌, true, false, Ok, option_copied, length, IfOk, IfErr, OnErr, ◌⊎◌};
ghost use Rattle.mem_files.specs.Name.{is_openable};
ghost use Rattle.mem_files.specs.Files.{files, with_file};
ghost use Rattle.mem_files.specs.Listing.{max_size};
ghost use Rattle.meaning_model.specs.Limits.{HasNoRoom};
ghost use Rattle.meaning_model.specs.Inputs.{found};
ghost use Rattle.plain_run.specs.Gives.{IsDue};

use crate::fault::PlainFault;
use mem_files::laws::{are_files, only_openable_names};
use mem_files::{Files, FilesFault};
use std::alloc::Allocator;

/// The bytes of the file that opening this name for reading finds; `None` where the name can't be opened
/// or there is no such file (`kernel/sysfile.c`'s `sys_open`).
pub fn find<'s, A: Allocator>(store: &'s Files<A>, name: &[u8]) -> Option<&'s [u8]>
    ensures { option_copied result ≡ found (files store.now) name.now }
{
    only_openable_names(store);
    store.get(name)
}

/// Makes the file of this name hold exactly these bytes, whether it was there or not, and returns `true`;
/// `false` where the name can't be opened, and then nothing changes. `TooLarge` where there are more than
/// 274,432 bytes, or it would be the 201st file; `Memory` where an allocation was refused. An error changes
/// nothing (own).
pub fn give<A: Allocator + Copy>(
    store: &mut Files<A>,
    name: &[u8],
    bytes: &[u8],
) -> Result<bool, PlainFault>
    ensures answer { IfOk result (λ is_given. is_given ≡ is_openable name.now) }
    ensures given { result ≡ Ok true → files store.new ≡ with_file (files store.old) name.now bytes.now }
    ensures refused { result ≡ Ok false → store.new ≡ store.old }
    ensures same { OnErr result (store.new ≡ store.old) }
    ensures openable { IfErr result (IsDue (is_openable name.now ≡ true)) }
    ensures large { IfErr result (IsDue (HasNoRoom (files store.old) name.now ⊎ (max_size < length bytes.now))) }
{
    are_files(store);
    match store.put(name, bytes) {
        Ok(()) => Ok(true),
        Err(FilesFault::BadName) => Ok(false),
        Err(FilesFault::FullFiles) => Err(PlainFault::TooLarge),
        Err(FilesFault::FullSize) => Err(PlainFault::TooLarge),
        Err(_) => Err(PlainFault::Memory),
    }
}
