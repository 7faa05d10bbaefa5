//! The file of a redirection for writing: opened, and closed with what was written.
ghost use Rattle.std.specs.Prelude.{◌≡◌, ◌≢◌, ◌<◌, true, false, Ok, None, [], length, IfOk, IfErr, OnOk};
ghost use Rattle.sh_tree.specs.declared.tree.Mode.TheVariants.{Input};
ghost use Rattle.mem_files.specs.Name.{is_openable};
ghost use Rattle.mem_files.specs.Files.{files, with_file};
ghost use Rattle.mem_files.specs.Listing.{max_size};
ghost use Rattle.meaning_model.specs.Limits.{HasNoRoom};
ghost use Rattle.meaning_model.specs.Meaning.{opened, over_end};
ghost use Rattle.plain_run.specs.Gives.{IsDue};
ghost use Rattle.plain_run.specs.Held.{held};

use crate::fault::PlainFault;
use crate::store::give;
use mem_files::laws::are_files;
use mem_files::{Files, FilesFault};
use script_load::Profile;
use sh_tree::Mode;
use std::alloc::{AllocError, Allocator};

// What a file holds that a redirection leaves in place: under `>>` all that it holds, else nothing.
pub fn held_bytes<A: Allocator + Copy>(
    alloc: A,
    mode: Mode,
    store: &Files<A>,
    name: &[u8],
) -> Result<Vec<u8, A>, AllocError>
    ensures { IfOk result (λ bytes. bytes.items ≡ held mode (files store.now) name.now) }
{
    match (mode, store.get(name)) {
        (Mode::Over, Some(bytes)) => bytes.to_vec(alloc),
        _ => Ok(Vec::new(alloc)),
    }
}

// Opens a file for writing; false where its name can't be opened, and then nothing changes.
pub fn open_output<A: Allocator + Copy>(
    mode: Mode,
    store: &mut Files<A>,
    name: &[u8],
) -> Result<bool, PlainFault>
    requires { mode ≢ Input }
    ensures answer { IfOk result (λ is_open. is_open ≡ is_openable name.now) }
    ensures opened { result ≡ Ok true → files store.new ≡ opened mode name.now (files store.old) }
    ensures refused { result ≡ Ok false → store.new ≡ store.old }
    ensures openable { IfErr result (IsDue (is_openable name.now ≡ true)) }
    ensures full { IfErr result (IsDue (HasNoRoom (files store.old) name.now)) }
{
    if mode == Mode::Over {
        open_kept(store, name)
    } else {
        open_emptied(store, name)
    }
}

// Under `>>` a file is made where it is missing.
fn open_kept<A: Allocator + Copy>(store: &mut Files<A>, name: &[u8]) -> Result<bool, PlainFault>
    ensures answer { IfOk result (λ is_open. is_open ≡ is_openable name.now) }
    ensures opened { result ≡ Ok true → files store.new ≡ opened Mode.Over name.now (files store.old) }
    ensures refused { result ≡ Ok false → store.new ≡ store.old }
    ensures openable { IfErr result (IsDue (is_openable name.now ≡ true)) }
    ensures full { IfErr result (IsDue (HasNoRoom (files store.old) name.now)) }
{
    are_files(store);
    match store.create(name) {
        Ok(()) => Ok(true),
        Err(FilesFault::BadName) => Ok(false),
        Err(FilesFault::FullFiles) => Err(PlainFault::TooLarge),
        Err(_) => Err(PlainFault::Memory),
    }
}

// Under `>` it is empty then.
fn open_emptied<A: Allocator + Copy>(store: &mut Files<A>, name: &[u8]) -> Result<bool, PlainFault>
    ensures answer { IfOk result (λ is_open. is_open ≡ is_openable name.now) }
    ensures opened { result ≡ Ok true → files store.new ≡ opened Mode.Fresh name.now (files store.old) }
    ensures refused { result ≡ Ok false → store.new ≡ store.old }
    ensures openable { IfErr result (IsDue (is_openable name.now ≡ true)) }
    ensures full { IfErr result (IsDue (HasNoRoom (files store.old) name.now)) }
{
    give(store, name, &[])
}

// What a file holds in the end that held these bytes when `>>` was opened on it, or none where `>` was:
// under xv6's profile what was written over them, under the other the one and then the other.
fn end_bytes<A: Allocator>(
    profile: Profile,
    mut held: Vec<u8, A>,
    mut written: Vec<u8, A>,
) -> Result<Vec<u8, A>, AllocError>
    ensures { IfOk result (λ bytes. bytes.items ≡ over_end profile held.items written.items) }
{
    match profile {
        Profile::Xv6 => {
            if written.len() < held.len() {
                written.extend_from_slice(&held.as_slice()[written.len()..])?;
            }
            Ok(written)
        }
        Profile::Append if held.is_empty() => Ok(written),
        Profile::Append => {
            held.extend_from_slice(written.as_slice())?;
            Ok(held)
        }
    }
}

// Gives a file that was opened for writing what was written to it, over or behind what it held.
pub fn close_output<A: Allocator + Copy>(
    profile: Profile,
    store: &mut Files<A>,
    name: &[u8],
    held: Vec<u8, A>,
    written: Vec<u8, A>,
) -> Result<(), PlainFault>
    requires openable { is_openable name.now ≡ true }
    requires present { files store.old name.now ≢ None }
    ensures closed { OnOk result (files store.new ≡ with_file (files store.old) name.now (over_end profile held.items written.items)) }
    ensures large { IfErr result (IsDue (max_size < length (over_end profile held.items written.items))) }
{
    let end = end_bytes(profile, held, written)?;
    let _is_given = give(store, name, end.as_slice())?;
    Ok(())
}
