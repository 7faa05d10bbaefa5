//! The numbers of open-file entries in the order in which descriptors hold them first. No contract speaks of it: what is made of it is
//! compared.

use crate::kept::Held;
use std::rc::Rc;
use user_calls::Machine;

// How many numbers are distinguished: those of all entries.
pub const NUMBERS: usize = 100;

// Numbers by their rank, which is the order in which they were noted.
#[derive(Drop)]
pub struct Ranks {
    noted: [bool; NUMBERS],
    ranks: [u8; NUMBERS],
    pub numbers: [u8; NUMBERS],
    pub count: usize,
}

impl Ranks {
    // The numbers that the descriptors in these slots hold.
    pub fn of<M: Machine>(slots: &[Option<Rc<Held<M>>>]) -> Ranks {
        let mut ranks = Ranks {
            noted: [false; NUMBERS],
            ranks: [0; NUMBERS],
            numbers: [0; NUMBERS],
            count: 0,
        };
        for slot in slots {
            if let Some(held) = slot {
                ranks.note_places(&held.places);
            }
        }
        ranks
    }

    // Notes what descriptors hold.
    fn note_places(&mut self, places: &[Option<u8>]) {
        for place in places {
            if let Some(number) = place {
                self.note(*number);
            }
        }
    }

    // Notes a number, unless it was.
    fn note(&mut self, number: u8) {
        let place = usize::from(number);
        if place < NUMBERS && self.count < NUMBERS && !self.noted[place] {
            self.noted[place] = true;
            self.ranks[place] = self.count as u8;
            self.numbers[self.count] = number;
            self.count += 1;
        }
    }

    // Notes all other numbers.
    pub fn note_rest(&mut self) {
        for number in 0..NUMBERS {
            self.note(number as u8);
        }
    }

    // The rank of a number that was noted.
    pub fn rank(&self, number: u8) -> u8 {
        let place = usize::from(number);
        if place < NUMBERS {
            self.ranks[place]
        } else {
            0
        }
    }
}
