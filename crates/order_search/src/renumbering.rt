//! Whether parts of two kernels are the same but for the numbers of open-file entries.

ghost use Rattle.std.specs.Prelude.{◌≡◌, ℕ, true, map};
ghost use Rattle.fd_table.specs.Entries.{entry_at, free_count};
ghost use Rattle.kernel_model.specs.Woke.{woke_slot};
ghost use Rattle.kernel_model.specs.Numbers.{renumbered_place, renumbered_fds, renumbered_slot, renumbered_table};
ghost use Rattle.order_search.specs.Shown.{slot_of};
ghost use Rattle.order_search.specs.Under.{number_under, GoBack};

use crate::kept::{Held, Opened, same_entry};
use crate::ranks::{NUMBERS, Ranks};
use std::rc::Rc;
use user_calls::Machine;

// For each number another one, and for each of these the one that it is of: a guess, which is to be tested.
#[derive(Drop)]
pub struct Renumbering {
    pub to: [u8; NUMBERS],
    pub back: [u8; NUMBERS],
}

impl Renumbering {
    // The numbers that descriptors in these slots hold first become those that are held first in the others.
    pub fn between<M: Machine>(
        slots: &[Option<Rc<Held<M>>>],
        others: &[Option<Rc<Held<M>>>],
    ) -> Renumbering {
        let mut first = Ranks::of(slots);
        let mut second = Ranks::of(others);
        first.note_rest();
        second.note_rest();
        let mut found = Renumbering {
            to: [0; NUMBERS],
            back: [0; NUMBERS],
        };
        for rank in 0..NUMBERS {
            found.pair(first.numbers[rank], second.numbers[rank]);
        }
        found
    }

    // The number becomes the other one.
    fn pair(&mut self, number: u8, other: u8) {
        let from = usize::from(number);
        let to = usize::from(other);
        if from < NUMBERS && to < NUMBERS {
            self.to[from] = other;
            self.back[to] = number;
        }
    }

    // Whether no two numbers become one, and each is what one becomes.
    pub fn is_one_to_one(&self) -> bool
        ensures there { result ≡ true → GoBack self.now.to self.now.back }
        ensures here { result ≡ true → GoBack self.now.back self.now.to }
    {
        go_back(&self.to, &self.back) && go_back(&self.back, &self.to)
    }
}

// Whether each number goes back.
fn go_back(to: &[u8], back: &[u8]) -> bool
    ensures { result ≡ true → GoBack to.now back.now }
{
    if to.len() != back.len() {
        return false;
    }
    for number in 0..to.len() {
        let other = usize::from(to[number]);
        if other >= back.len() || usize::from(back[other]) != number {
            return false;
        }
    }
    true
}

fn is_place_under(to: &[u8], place: Option<u8>, other: Option<u8>) -> bool
    ensures { result ≡ true → renumbered_place (number_under to.now) place ≡ other }
{
    match (place, other) {
        (None, None) => true,
        (Some(number), Some(other)) => {
            let number = usize::from(number);
            number < to.len() && to[number] == other
        }
        _ => false,
    }
}

// Whether descriptors hold the same under these numbers.
pub fn are_places_under(to: &[u8], places: &[Option<u8>], others: &[Option<u8>]) -> bool
    ensures { result ≡ true → renumbered_fds (number_under to.now) places.now ≡ others.now }
{
    if places.len() != others.len() {
        return false;
    }
    for i in 0..places.len() {
        if !is_place_under(to, places[i], others[i]) {
            return false;
        }
    }
    true
}

fn is_slot_under<M: Machine>(
    to: &[u8],
    slot: &Option<Rc<Held<M>>>,
    other: &Option<Rc<Held<M>>>,
) -> bool
    ensures { result ≡ true → renumbered_slot (number_under to.now) (woke_slot (slot_of slot.now)) ≡ woke_slot (slot_of other.now) }
{
    match (slot, other) {
        (None, None) => true,
        (Some(held), Some(other)) => held.is_under(to, other),
        _ => false,
    }
}

// Whether slots are the same under these numbers, but for who sleeps.
pub fn are_slots_under<M: Machine>(
    to: &[u8],
    slots: &[Option<Rc<Held<M>>>],
    others: &[Option<Rc<Held<M>>>],
) -> bool
    ensures { result ≡ true → renumbered_table (number_under to.now) (map woke_slot (map slot_of slots.now)) ≡ map woke_slot (map slot_of others.now) }
{
    if slots.len() != others.len() {
        return false;
    }
    for i in 0..slots.len() {
        if !is_slot_under(to, &slots[i], &others[i]) {
            return false;
        }
    }
    true
}

// Whether the entry of this number is that of the other number; past the end there is none.
fn is_entry_under(
    entries: &[Option<Opened>],
    others: &[Option<Opened>],
    number: usize,
    other: usize,
) -> bool
    ensures { result ≡ true → entry_at others.now other ≡ entry_at entries.now number }
{
    match (entries.get(number), others.get(other)) {
        (Some(entry), Some(other)) => same_entry(entry, other),
        (Some(entry), None) => entry.is_none(),
        (None, Some(other)) => other.is_none(),
        (None, None) => true,
    }
}

// Whether entries are the same under these numbers.
pub fn are_entries_under(to: &[u8], entries: &[Option<Opened>], others: &[Option<Opened>]) -> bool
    ensures { result ≡ true → (e : ℕ) → entry_at others.now (number_under to.now e) ≡ entry_at entries.now e }
{
    if entries.len() > to.len() || others.len() > to.len() {
        return false;
    }
    for number in 0..to.len() {
        if !is_entry_under(entries, others, number, usize::from(to[number])) {
            return false;
        }
    }
    true
}

// How many entries are free.
pub fn free_entries(entries: &[Option<Opened>]) -> usize
    ensures { result ≡ free_count entries.now }
{
    let mut count: usize = 0;
    for entry in entries {
        if entry.is_none() {
            count += 1;
        }
    }
    count
}
