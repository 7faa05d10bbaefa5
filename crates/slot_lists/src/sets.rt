//! Sets of slots.

use crate::SLOTS;
use std::marker::Model;

/// A set of slots: a bit each, the lowest for slot 0 (own).
#[derive(Clone, Copy)]
pub struct SlotSet {
    bits: u64,
}

impl Model for SlotSet {
    ghost use Rattle.std.specs.Prelude.{ℕ};

    ghost Value = { ℕ };

    ghost view = { λ s. s.bits };

    ghost inverse = { λ n. record { bits = n } };
}

impl SlotSet {
    ghost use Rattle.std.specs.Prelude.{◌≡◌, ℕ, ◌<◌, ◌≤◌, Bool, true, false, List, IfSome, IsTrue, ◌↔◌, count_by, position, replicate, slice_set};
    ghost use Rattle.slot_lists.specs.Sets.{HasFlags, both_of};

    /// The set of no slot (own).
    pub fn new() -> Self
        ensures { HasFlags result (replicate SLOTS false) }
    {
        SlotSet { bits: 0 }
    }

    /// The set of all slots (own).
    pub fn all() -> Self
        ensures { HasFlags result (replicate SLOTS true) }
    {
        SlotSet { bits: u64::MAX }
    }

    /// The same set, with the slot where `is_in`, else without it (own).
    pub fn with(self, slot: usize, is_in: bool) -> Self
        requires { slot < SLOTS }
        ensures { (flags : List Bool) → HasFlags self flags → HasFlags result (slice_set flags slot is_in) }
    {
        let bit = 1u64 << slot;
        SlotSet {
            bits: if is_in {
                self.bits | bit
            } else {
                self.bits & (u64::MAX ^ bit)
            },
        }
    }

    /// The slots that are in both sets (own).
    pub fn and(self, other: SlotSet) -> Self
        ensures { (flags others : List Bool) → HasFlags self flags → HasFlags other others → HasFlags result (both_of flags others) }
    {
        SlotSet {
            bits: self.bits & other.bits,
        }
    }

    /// The lowest slot of the set; `None` where it is empty (own).
    pub fn first(self) -> Option<usize>
        ensures value { (flags : List Bool) → HasFlags self flags → result ≡ position (λ flag. flag) flags }
        ensures within { IfSome result (λ slot. slot < SLOTS) }
    {
        if self.bits == 0 {
            None
        } else {
            Some(self.bits.trailing_zeros() as usize)
        }
    }

    /// How many slots the set has (own).
    pub fn count(self) -> usize
        ensures value { (flags : List Bool) → HasFlags self flags → result ≡ count_by (λ flag. flag) flags }
        ensures within { result ≤ SLOTS }
    {
        self.bits.count_ones() as usize
    }
}
