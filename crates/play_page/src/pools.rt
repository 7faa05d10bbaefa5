//! Rows that are kept once.

use std::alloc::{AllocError, Global};
use std::collections::BTreeMap;
use step_answers::Text;

// Rows, each once, in the order in which they came. That memory was refused to one is kept (`is_refused`): so no row needs a look at how
// the one before it went.
#[derive(Drop)]
pub struct Pool {
    alloc: Global,
    rows: Vec<Vec<u8>>,
    places: BTreeMap<Vec<u8>, usize>,
    size: usize,
    is_refused: bool,
}

impl Pool {
    pub fn new(alloc: Global) -> Pool {
        Pool {
            alloc,
            rows: Vec::new(alloc),
            places: BTreeMap::new(alloc),
            size: 0,
            is_refused: false,
        }
    }

    // Keeps the row, which isn't there, under its key.
    fn keep(&mut self, key: Vec<u8>, row: &[u8]) -> Result<usize, AllocError> {
        let place = self.rows.len();
        self.places.insert(key, place)?;
        self.size = self.size.saturating_add(row.len()).saturating_add(4);
        self.rows.push(Vec::from_slice(self.alloc, row)?)?;
        Ok(place)
    }

    // The place of the row, from 0, which is added where it isn't there.
    fn find(&mut self, row: &[u8]) -> Result<usize, AllocError> {
        let key = Vec::from_slice(self.alloc, row)?;
        if let Some(place) = self.places.get(&key) {
            return Ok(*place);
        }
        self.keep(key, row)
    }

    fn refuse(&mut self) -> usize {
        self.is_refused = true;
        0
    }

    // The same; any place where memory is refused.
    pub fn put(&mut self, row: &[u8]) -> usize {
        match self.find(row) {
            Ok(place) => place,
            Err(_) => self.refuse(),
        }
    }

    // The same of a text without its first bytes, of which there are so many.
    pub fn put_rest(&mut self, text: Text, first: usize) -> usize {
        match text.end() {
            Ok(row) => self.put(row.get(first..).unwrap_or(&[])),
            Err(_) => self.refuse(),
        }
    }

    // The same of a text.
    pub fn put_text(&mut self, text: Text) -> usize {
        self.put_rest(text, 0)
    }

    // Whether memory was refused to a row.
    pub fn is_refused(&self) -> bool {
        self.is_refused
    }

    // The rows, in order.
    pub fn rows(&self) -> &[Vec<u8>] {
        self.rows.as_slice()
    }

    // About how many bytes they take on the page.
    pub fn size(&self) -> usize {
        self.size
    }
}
