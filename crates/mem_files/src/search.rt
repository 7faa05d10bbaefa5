//! Where a file stands among sorted names.

ghost use Rattle.std.specs.Prelude.{◌≡◌, ◌≤◌, length, IsTrue, IfSome, IfNone, None};
ghost use Rattle.std.specs.FinMap.Entries.{is_sorted};
ghost use Rattle.mem_files.specs.Name.{name_cmp};
ghost use Rattle.mem_files.specs.Files.{files};
ghost use Rattle.mem_files.specs.Place.{place, StandsAt};

use crate::entry::Entry;
use std::alloc::Allocator;

// How many files stand before the first whose name isn't below this one: a binary search.
pub fn place<A: Allocator>(entries: &[Entry<A>], name: &[u8]) -> usize
    requires { IsTrue (is_sorted name_cmp entries.now) }
    ensures place { result ≡ place entries.now name.now }
    ensures within { result ≤ length entries.now }
{
    let mut low = 0;
    let mut high = entries.len();
    while low < high {
        let middle = low + (high - low) / 2;
        if name.cmp(entries[middle].name()).is_gt() {
            low = middle + 1;
        } else {
            high = middle;
        }
    }
    low
}

// Where the file of this name stands, if there is one.
pub fn find<A: Allocator>(entries: &[Entry<A>], name: &[u8]) -> Option<usize>
    requires { IsTrue (is_sorted name_cmp entries.now) }
    ensures found { IfSome result (λ at. StandsAt entries.now name.now at) }
    ensures missed { IfNone result (files entries.now name.now ≡ None) }
{
    let at = place(entries, name);
    if at < entries.len() && entries[at].name() == name {
        Some(at)
    } else {
        None
    }
}
