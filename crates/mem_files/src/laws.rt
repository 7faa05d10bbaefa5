//! What holds of every set of files, so that no caller cites how it is kept.
//!
//! Each law is a function that does nothing, and its contract is the law.
ghost use Rattle.std.specs.Prelude.{◌≡◌, ◌≢◌, ℕ, ◌+◌, ◌<◌, ◌≤◌, ◌++◌, [], List, Some, None, false, true, length, max, slice_get, IfSome};
ghost use Rattle.mem_files.specs.Name.{Name, Bytes, name_cmp, is_openable};
ghost use Rattle.mem_files.specs.Files.{FileMap, files, with_file};
ghost use Rattle.mem_files.specs.Overlay.{overlay, written};
ghost use Rattle.mem_files.specs.Listing.{AreFiles, with_entry, count_with, max_files, max_size};
ghost use Rattle.std.specs.declared.cmp.Ordering.TheVariants.{Less};

use crate::set::Files;
use std::alloc::Allocator;

/// The names of a set strictly ascend and can be opened, there are at most 200, and no file is too
/// large.
pub fn are_files<A: Allocator>(set: &Files<A>)
    ensures { AreFiles set.now }
{
    let _ = set.count();
}

/// A name that can't be opened is in no set of files.
pub fn only_openable_names<A: Allocator>(set: &Files<A>)
    ensures { (name : Name) → is_openable name ≡ false → files set.now name ≡ None }
{
    let _ = set.count();
}

/// No file of a set is larger than a file can be.
pub fn only_small_files<A: Allocator>(set: &Files<A>)
    ensures { (name : Name) (bytes : Bytes) → files set.now name ≡ Some bytes → length bytes ≤ max_size }
{
    let _ = set.count();
}

/// The file that was given bytes holds them.
pub fn at_the_name()
    ensures { (F : FileMap) (name : Name) (bytes : Bytes) → with_file F name bytes name ≡ Some bytes }
{}

/// Every other name holds what it held.
pub fn at_other_names()
    ensures { (F : FileMap) (name other : Name) (bytes : Bytes)
        → other ≢ name → with_file F name bytes other ≡ F other }
{}

/// A file that is given the bytes that it holds changes nothing.
pub fn given_its_own()
    ensures { (F : FileMap) (name other : Name) (bytes : Bytes)
        → F name ≡ Some bytes → with_file F name bytes other ≡ F other }
{}

/// The list with an entry stands for the map with that file.
pub fn entry_is_file()
    ensures { (list : List (Name × Bytes)) (name other : Name) (bytes : Bytes)
        → files (with_entry list name bytes) other ≡ with_file (files list) name bytes other }
{}

/// The list with an entry is one longer where the name is new, and as long otherwise.
pub fn entry_counts()
    ensures { (list : List (Name × Bytes)) (name : Name) (bytes : Bytes)
        → AreFiles list → length (with_entry list name bytes) ≡ count_with list name }
{}

/// The list with an entry is a list of files where name and bytes can be a file's and there is room.
pub fn entry_keeps_files()
    ensures { (list : List (Name × Bytes)) (name : Name) (bytes : Bytes) → AreFiles list → is_openable name ≡ true
        → length bytes ≤ max_size → count_with list name ≤ max_files → AreFiles (with_entry list name bytes) }
{}

/// Two sets with the same files have the same list.
pub fn one_list()
    ensures { (left right : List (Name × Bytes)) → AreFiles left → AreFiles right
        → ((name : Name) → files left name ≡ files right name) → left ≡ right }
{}

/// Each name of the list has the bytes that stand beside it.
pub fn listed_is_found()
    ensures { (list : List (Name × Bytes)) (i : ℕ) (entry : Name × Bytes)
        → AreFiles list → slice_get list i ≡ Some entry → files list entry.0 ≡ Some entry.1 }
{}

/// Each file that is found stands in the list.
pub fn found_is_listed()
    ensures { (list : List (Name × Bytes)) (name : Name) (bytes : Bytes)
        → files list name ≡ Some bytes → (i : ℕ) × (slice_get list i ≡ Some (name, bytes)) }
{}

/// Of two places in the list the first has the lower name.
pub fn names_ascend()
    ensures { (list : List (Name × Bytes)) (i j : ℕ) (low high : Name × Bytes) → AreFiles list → i < j
        → slice_get list i ≡ Some low → slice_get list j ≡ Some high → name_cmp low.0 high.0 ≡ Less }
{}

/// Nothing written over bytes leaves them, and bytes written over nothing are all that there is.
pub fn overlay_of_none()
    ensures over { (b : Bytes) → overlay [] b ≡ b }
    ensures under { (w : Bytes) → overlay w [] ≡ w }
{}

/// A write at the front replaces the bytes there.
pub fn write_at_front()
    ensures { (b w : Bytes) → written b 0 w ≡ overlay w b }
{}

/// A write at the end appends: so `write_at` at the length of a file does what `append` does.
pub fn write_at_end()
    ensures { (b w : Bytes) → written b (length b) w ≡ b ++ w }
{}

/// A write of no bytes changes nothing.
pub fn write_of_none()
    ensures { (b : Bytes) (at : ℕ) → written b at [] ≡ b }
{}

/// A write that would leave a gap changes nothing.
pub fn write_past_end()
    ensures { (b : Bytes) (at : ℕ) (w : Bytes) → length b < at → written b at w ≡ b }
{}

/// How long the bytes are after a write that leaves no gap.
pub fn length_after_write()
    ensures { (b : Bytes) (at : ℕ) (w : Bytes) → at ≤ length b → length (written b at w) ≡ max (length b) (at + length w) }
{}

/// Two writes in a row, the second where the first ended, are one.
pub fn writes_in_a_row()
    ensures { (b : Bytes) (at : ℕ) (w x : Bytes) → written (written b at w) (at + length w) x ≡ written b at (w ++ x) }
{}

/// A write over one that it begins with.
pub fn write_again()
    ensures { (b : Bytes) (at : ℕ) (w x : Bytes) → written (written b at w) at (w ++ x) ≡ written b at (w ++ x) }
{}
