//! Lists of names in byte order, each name once.
ghost use Rattle.std.specs.Prelude.{◌≡◌, List, ℕ, map, IfOk};
ghost use Rattle.std.specs.BTreeSet.{keys, IsOrdered};
ghost use Rattle.std.specs.List.Sorted.{IsStrictlySortedBy};
ghost use Rattle.mem_files.specs.Name.{name_cmp};
ghost use Rattle.prog_parts.specs.NameSets.{among};

use sh_lexer::Bytes;
use std::alloc::{AllocError, Allocator};
use std::collections::BTreeSet;

// The names of a list as a set.
fn set_of<A: Allocator + Copy>(
    alloc: A,
    names: &[Bytes<A>],
) -> Result<BTreeSet<Vec<u8, A>, A>, AllocError>
    ensures { IfOk result (λ set. (name : List ℕ) → among (map (λ key. key.items) (keys set)) name ≡ among names.now name) }
{
    let mut set = BTreeSet::new(alloc);
    for name in names {
        set.insert(name.as_slice().to_vec(alloc)?)?;
    }
    Ok(set)
}

// The names of a list in order.
pub fn in_order<A: Allocator + Copy>(
    alloc: A,
    names: &[Bytes<A>],
) -> Result<Vec<Bytes<A>, A>, AllocError>
    ensures ordered { IfOk result (λ list. IsStrictlySortedBy name_cmp list.items) }
    ensures names { IfOk result (λ list. (name : List ℕ) → among list.items name ≡ among names.now name) }
{
    let set = set_of(alloc, names)?;
    let mut list = Vec::new(alloc);
    for name in set {
        list.push(Bytes::from_vec(name))?;
    }
    Ok(list)
}
