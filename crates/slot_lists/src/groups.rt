//! Slots in groups.

use crate::{SLOTS, SlotSet};
use std::marker::Model;

/// The slots in groups: each slot has a key, the number of its group, or none (own). Contracts see the set of each
/// group.
#[derive(Drop)]
pub struct SlotGroups<const GROUPS: usize> {
    sets: [SlotSet; GROUPS],
}

impl<const GROUPS: usize> Model for SlotGroups<GROUPS> {
    ghost use Rattle.std.specs.Prelude.{◌≡◌, ℕ, List, length};

    ghost Value = { List ℕ };

    ghost view = { λ g. g.sets };

    ghost invariant = { λ g. length g.sets ≡ GROUPS };
}

impl<const GROUPS: usize> SlotGroups<GROUPS> {
    ghost use Rattle.std.specs.Prelude.{◌≡◌, ℕ, ◌<◌, ◌≤◌, List, Option, None, Some, IfSome, count_by, map, position, replicate, slice_index_or, slice_set};
    ghost use Rattle.slot_lists.specs.Sets.{AreGrouped, HasFlags, IsMarked, is_key};

    /// Groups in which no slot has a key (own).
    pub fn new() -> Self
        ensures { AreGrouped GROUPS (replicate SLOTS None) result }
    {
        SlotGroups {
            sets: [SlotSet::new(); GROUPS],
        }
    }

    /// Groups in which all slots have this key (own).
    pub fn filled(group: usize) -> Self
        requires { group < GROUPS }
        ensures { AreGrouped GROUPS (replicate SLOTS (Some group)) result }
    {
        let mut sets = [SlotSet::new(); GROUPS];
        sets[group] = SlotSet::all();
        SlotGroups { sets }
    }

    /// Becomes equal to the other groups (own).
    pub fn copy_from(&mut self, other: &Self)
        ensures { self.new ≡ other.now }
    {
        self.sets.copy_from_slice(&other.sets);
    }

    /// Gives the slot, which has the key `from`, the key `to` (own).
    pub fn put(&mut self, slot: usize, from: Option<usize>, to: Option<usize>)
        requires { slot < SLOTS }
        ensures { (keys : List (Option ℕ)) → AreGrouped GROUPS keys self.old → slice_index_or keys slot None ≡ from → AreGrouped GROUPS (slice_set keys slot to) self.new }
    {
        self.mark(slot, from, false);
        self.mark(slot, to, true);
    }

    /// The lowest slot with this key; `None` where none has it (own).
    pub fn first(&self, group: usize) -> Option<usize>
        requires { group < GROUPS }
        ensures value { (keys : List (Option ℕ)) → AreGrouped GROUPS keys self.now → result ≡ position (is_key group) keys }
        ensures within { IfSome result (λ slot. slot < SLOTS) }
    {
        self.sets[group].first()
    }

    /// How many slots have this key (own).
    pub fn count(&self, group: usize) -> usize
        requires { group < GROUPS }
        ensures value { (keys : List (Option ℕ)) → AreGrouped GROUPS keys self.now → result ≡ count_by (is_key group) keys }
        ensures within { result ≤ SLOTS }
    {
        self.sets[group].count()
    }

    /// The slots with this key (own).
    pub fn set(&self, group: usize) -> SlotSet
        requires { group < GROUPS }
        ensures { (keys : List (Option ℕ)) → AreGrouped GROUPS keys self.now → HasFlags result (map (is_key group) keys) }
    {
        self.sets[group]
    }

    // The slot is in the group of this key, or out of it; in the others it stays as it is.
    fn mark(&mut self, slot: usize, key: Option<usize>, is_in: bool)
        requires { slot < SLOTS }
        ensures { IsMarked GROUPS key slot is_in self.old self.new }
    {
        if let Some(group) = key {
            if group < GROUPS {
                self.sets[group] = self.sets[group].with(slot, is_in);
            }
        }
    }
}
