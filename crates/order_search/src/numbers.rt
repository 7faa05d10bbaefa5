//! The numbers of entries.

use crate::parts::entry_numbers;
use fd_table::Entry;
use std::alloc::{AllocError, Global};
use std::marker::Model;

// The numbers of all entries, in order.
#[derive(Drop)]
pub struct Numbers {
    numbers: Vec<Entry>,
}

impl Model for Numbers {
    ghost use Rattle.std.specs.Prelude.{List, ℕ};
    ghost use Rattle.order_search.specs.Places.{AreNumbers};

    ghost Value = { List ℕ };

    ghost view = { λ n. n.numbers.items };

    ghost invariant = { λ n. AreNumbers n.numbers.items };
}

impl Numbers {
    ghost use Rattle.order_search.specs.Places.{AreNumbers};

    // No numbers.
    pub fn new(alloc: Global) -> Result<Numbers, AllocError> {
        Ok(Numbers {
            numbers: entry_numbers(alloc)?,
        })
    }

    // The numbers, in order.
    pub fn as_slice(&self) -> &[Entry]
        ensures { AreNumbers result.now }
    {
        self.numbers.as_slice()
    }
}
