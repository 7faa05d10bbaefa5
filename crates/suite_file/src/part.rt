//! A table of a suite that is read, and what is wrong in it.

use crate::fault::SuiteFault;
use crate::places::{Key, line_of};
use std::alloc::Global;
use toml::Table;

/// A table of a suite that is read: the suite itself, or a test of it.
#[derive(Clone, Copy)]
pub struct Part<'t> {
    pub alloc: Global,
    /// The suite's text.
    pub text: &'t [u8],
    pub table: &'t Table,
    /// The number of the test, counted from 1; 0 of the suite itself.
    pub test: usize,
}

impl Part<'_> {
    /// The line at which the key of a table stands.
    pub fn line(&self, table: &str, key: &str) -> usize {
        let key = Key {
            test: self.test,
            table,
            key,
        };
        line_of(self.text, &key)
    }

    /// What is wrong at a key.
    pub fn fault(&self, table: &str, key: &str, sentence: &str) -> SuiteFault {
        let line = self.line(table, key);
        match String::from_str(self.alloc, sentence) {
            Ok(sentence) => SuiteFault::At { line, sentence },
            Err(_) => SuiteFault::Memory,
        }
    }

    /// What is wrong at a key, which the sentence begins with.
    pub fn key_fault(&self, table: &str, key: &str, what: &str) -> SuiteFault {
        match format!(in self.alloc; "`{key}` {what}") {
            Ok(text) => self.fault(table, key, text.as_str()),
            Err(_) => SuiteFault::Memory,
        }
    }

    /// The number at a key isn't one of these.
    pub fn number_fault(&self, key: &str, least: u64, most: u64) -> SuiteFault {
        match format!(in self.alloc; "is no number from {least} to {most}") {
            Ok(what) => self.key_fault("", key, what.as_str()),
            Err(_) => SuiteFault::Memory,
        }
    }

    /// Two keys give the same bytes.
    pub fn both_fault(&self, key: &str, file_key: &str) -> SuiteFault {
        match format!(in self.alloc; "stands beside `{key}`: only one of them is read") {
            Ok(what) => self.key_fault("", file_key, what.as_str()),
            Err(_) => SuiteFault::Memory,
        }
    }
}
