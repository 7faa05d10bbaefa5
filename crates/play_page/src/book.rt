//! Texts, things, processes, worlds, deeds and sets, each once.

use crate::pools::Pool;
use std::alloc::{AllocError, Global};
use step_answers::{Text, add_name};

// What a call touches.
#[derive(Clone, Copy, Debug, PartialEq, Eq)]
pub enum Kind {
    File,
    Pipe,
    Output,
    Diagnostics,
    Input,
}

// What rows of states are made of.
#[derive(Drop)]
pub struct Book {
    pub alloc: Global,
    pub texts: Pool,
    pub things: Pool,
    pub processes: Pool,
    pub worlds: Pool,
    pub deeds: Pool,
    pub sets: Pool,
}

// A comma before what stands at this place of a list, from 0, where it isn't the first.
pub fn add_comma(row: &mut Text, place: usize) {
    if place > 0 {
        row.add(",");
    }
}

// A comma, and the number.
pub fn add_item(row: &mut Text, number: usize) {
    row.add(",");
    row.number(number as u64);
}

// The same, of -1 for none.
pub fn add_optional(row: &mut Text, number: Option<usize>) {
    match number {
        Some(number) => add_item(row, number),
        None => row.add(",-1"),
    }
}

fn code_of(kind: Kind) -> usize {
    match kind {
        Kind::File => 0,
        Kind::Pipe => 1,
        Kind::Output => 2,
        Kind::Diagnostics => 3,
        Kind::Input => 4,
    }
}

impl Book {
    pub fn new(alloc: Global) -> Book {
        let mut texts = Pool::new(alloc);
        texts.put(&[]);
        Book {
            alloc,
            texts,
            things: Pool::new(alloc),
            processes: Pool::new(alloc),
            worlds: Pool::new(alloc),
            deeds: Pool::new(alloc),
            sets: Pool::new(alloc),
        }
    }

    // The row of a text.
    pub fn text(&mut self, text: Text) -> usize {
        self.texts.put_text(text)
    }

    // The row of bytes as they are shown.
    pub fn shown(&mut self, bytes: &[u8]) -> usize {
        let mut text = Text::new(self.alloc);
        text.shown(bytes);
        self.text(text)
    }

    // The row of a word.
    pub fn word(&mut self, word: &str) -> usize {
        self.texts.put(word.as_bytes())
    }

    // The row of the name of a file.
    pub fn name(&mut self, name: &[u8]) -> usize {
        let mut text = Text::new(self.alloc);
        add_name(&mut text, name);
        self.text(text)
    }

    // The row of a thing, of which this is the row of the text.
    pub fn thing(&mut self, kind: Kind, text: usize) -> usize {
        let mut row = Text::new(self.alloc);
        row.add("[");
        row.number(code_of(kind) as u64);
        add_item(&mut row, text);
        row.add("]");
        self.things.put_text(row)
    }

    // Whether memory was refused to a row.
    fn is_refused(&self) -> bool {
        self.texts.is_refused()
            || self.things.is_refused()
            || self.processes.is_refused()
            || self.worlds.is_refused()
            || self.deeds.is_refused()
            || self.sets.is_refused()
    }

    // `AllocError` where memory was refused to a row: then no row of it is right.
    pub fn check(&self) -> Result<(), AllocError> {
        if self.is_refused() {
            return Err(AllocError);
        }
        Ok(())
    }

    // About how many bytes all of it takes on the page.
    pub fn size(&self) -> usize {
        self.texts
            .size()
            .saturating_add(self.processes.size())
            .saturating_add(self.worlds.size())
            .saturating_add(self.deeds.size())
            .saturating_add(self.sets.size())
    }
}
