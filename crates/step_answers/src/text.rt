//! Text that is being written.

use itoa::Buffer;
use shown::add_shown;
use std::alloc::{AllocError, Global};

/// Text to which pieces are added, one after the other. That memory was refused to one is kept, and reported at the end: so no piece needs a
/// look at how the one before it went.
#[derive(Drop)]
pub struct Text {
    alloc: Global,
    bytes: Vec<u8>,
    is_refused: bool,
}

impl Text {
    /// Text that begins empty.
    pub fn new(alloc: Global) -> Text {
        Text::behind(alloc, Vec::new(alloc))
    }

    // Text that begins with these bytes.
    pub(crate) fn behind(alloc: Global, bytes: Vec<u8>) -> Text {
        Text {
            alloc,
            bytes,
            is_refused: false,
        }
    }

    pub(crate) fn alloc(&self) -> Global {
        self.alloc
    }

    pub(crate) fn len(&self) -> usize {
        self.bytes.len()
    }

    // Memory was refused to something that was to be added.
    pub(crate) fn refuse(&mut self) {
        self.is_refused = true;
    }

    /// Adds bytes as they are.
    pub fn bytes(&mut self, bytes: &[u8]) {
        if self.bytes.extend_from_slice(bytes).is_err() {
            self.refuse();
        }
    }

    /// Adds words.
    pub fn add(&mut self, words: &str) {
        self.bytes(words.as_bytes());
    }

    pub(crate) fn byte(&mut self, byte: u8) {
        self.bytes(&[byte]);
    }

    /// Adds bytes on one line, as they are shown.
    pub fn shown(&mut self, bytes: &[u8]) {
        if add_shown(&mut self.bytes, bytes).is_err() {
            self.refuse();
        }
    }

    /// Adds a number in decimal.
    pub fn number(&mut self, number: u64) {
        let mut buffer = Buffer::new();
        self.bytes(buffer.format(number).as_bytes());
    }

    // `1 byte`, `2 bytes`: the number with the word, which gets an `s` where the number isn't 1.
    pub(crate) fn count(&mut self, count: usize, word: &str) {
        self.number(count as u64);
        self.byte(b' ');
        self.add(word);
        if count != 1 {
            self.byte(b's');
        }
    }

    /// The bytes of the text.
    ///
    /// `AllocError` where memory was refused to one of the pieces.
    pub fn end(self) -> Result<Vec<u8>, AllocError> {
        if self.is_refused {
            return Err(AllocError);
        }
        Ok(self.bytes)
    }
}
