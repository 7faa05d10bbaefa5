//! Lists of slots.

ghost use Rattle.std.specs.Prelude.{◌≡◌, ℕ, ◌<◌, length, slice_index};

use std::marker::Model;

/// How many slots there are, as many as xv6's `NPROC`.
pub const SLOTS: usize = 64;

/// How many lists there are (own).
pub const LISTS: usize = 72;

// A node for each slot, and one for each list, which stands before its first slot and after its last: a byte numbers them.
const NODES: usize = 136;

/// Lists of slots, each slot in one of them at most (own). Contracts see which slots each list has, in order.
#[derive(Drop)]
pub struct SlotLists {
    next: [u8; NODES],
    prev: [u8; NODES],
    // The list that a slot stands in, or `LISTS`.
    owner: [u8; SLOTS],
}

impl Model for SlotLists {
    ghost use Rattle.std.specs.Prelude.{ℕ, List};
    ghost use Rattle.slot_lists.specs.Links.{AreLists, all_lists};

    ghost Value = { List (List ℕ) };

    ghost view = { λ l. all_lists l.next };

    ghost invariant = { λ l. AreLists l.next l.prev l.owner };
}

impl SlotLists {
    ghost use Rattle.std.specs.Prelude.{◌≡◌, ◌≢◌, ℕ, ◌<◌, List, [], ◌∷◌, ◌++◌, true, false, IfSome, IfNone, slice_get};
    ghost use Rattle.slot_lists.specs.Links.{has, slots_of, without};

    /// Lists without slots (own).
    pub fn new() -> Self
        ensures { (list : ℕ) → list < LISTS → slots_of result list ≡ [] }
    {
        SlotLists {
            next: own_nodes(),
            prev: own_nodes(),
            owner: no_owners(),
        }
    }

    /// Becomes equal to the other lists (own).
    pub fn copy_from(&mut self, other: &Self)
        ensures { self.new ≡ other.now }
    {
        self.next.copy_from_slice(&other.next);
        self.prev.copy_from_slice(&other.prev);
        self.owner.copy_from_slice(&other.owner);
    }

    /// Adds the slot, which stands in no list, at the end of this list (own).
    pub fn push(&mut self, list: usize, slot: usize)
        requires list { list < LISTS }
        requires slot { slot < SLOTS }
        requires free { (other : ℕ) → other < LISTS → has (slots_of self.old other) slot ≡ false }
        ensures here { slots_of self.new list ≡ slots_of self.old list ++ slot ∷ [] }
        ensures others { (other : ℕ) → other ≢ list → other < LISTS → slots_of self.new other ≡ slots_of self.old other }
    {
        let end = SLOTS + list;
        let last = self.prev[end];
        self.next[last as usize] = slot as u8;
        self.next[slot] = end as u8;
        self.prev[end] = slot as u8;
        self.prev[slot] = last;
        self.owner[slot] = list as u8;
    }

    /// Takes the slot out of the list that it stands in, if any; the other slots stay where they are (own).
    pub fn remove(&mut self, slot: usize)
        requires { slot < SLOTS }
        ensures { (list : ℕ) → list < LISTS → slots_of self.new list ≡ without slot (slots_of self.old list) }
    {
        if (self.owner[slot] as usize) < LISTS {
            let last = self.prev[slot];
            let next = self.next[slot];
            self.next[last as usize] = next;
            self.prev[next as usize] = last;
            self.owner[slot] = LISTS as u8;
        }
    }

    /// The first slot of the list; `None` where it is empty (own).
    pub fn first(&self, list: usize) -> Option<usize>
        requires { list < LISTS }
        ensures value { result ≡ slice_get (slots_of self.now list) 0 }
        ensures within { IfSome result (λ slot. slot < SLOTS) }
    {
        let node = self.next[SLOTS + list] as usize;
        if node < SLOTS { Some(node) } else { None }
    }

    /// The list that the slot stands in; `None` where it stands in none (own).
    pub fn list_with(&self, slot: usize) -> Option<usize>
        requires { slot < SLOTS }
        ensures within { IfSome result (λ list. list < LISTS) }
        ensures some { IfSome result (λ list. has (slots_of self.now list) slot ≡ true) }
        ensures none { IfNone result ((list : ℕ) → list < LISTS → has (slots_of self.now list) slot ≡ false) }
    {
        let list = self.owner[slot] as usize;
        if list < LISTS { Some(list) } else { None }
    }
}

// Each node is its own.
fn own_nodes() -> [u8; NODES]
    ensures all { length result ≡ NODES }
    ensures own { (i : ℕ) → i < NODES → slice_index result i ≡ i }
{
    let mut nodes = [0; NODES];
    for i in 0..NODES {
        nodes[i] = i as u8;
    }
    nodes
}

// No slot stands in a list.
fn no_owners() -> [u8; SLOTS]
    ensures all { length result ≡ SLOTS }
    ensures none { (i : ℕ) → i < SLOTS → slice_index result i ≡ LISTS }
{
    [LISTS as u8; SLOTS]
}
