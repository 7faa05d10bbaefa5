//! One object of JSON, as it is written: a line of a trace, or a result.

use base64::engine::general_purpose::STANDARD;
use json::Writer;
use proc_table::Pid;
use std::alloc::{AllocError, Global};
use std::str;

/// An object that is being written, behind what its buffer held. Each value is written under its key, but in a list: there, by
/// the calls whose names begin with `raw` and by `begin_raw_object`.
#[derive(Drop)]
pub struct Line {
    json: Writer,
    alloc: Global,
}

impl Line {
    /// The line opens its object.
    pub fn begin(alloc: Global, text: Vec<u8>) -> Result<Self, AllocError> {
        let mut json = Writer::new(text);
        json.begin_object()?;
        Ok(Line { json, alloc })
    }

    /// The buffer, with the whole line and LF.
    pub fn end(mut self) -> Result<Vec<u8>, AllocError> {
        self.json.end_object()?;
        let Line { json, alloc: _ } = self;
        let mut text = json.into_inner();
        text.push(b'\n')?;
        Ok(text)
    }

    /// A word.
    pub fn word(&mut self, key: &str, word: &str) -> Result<(), AllocError> {
        self.json.key(key)?;
        self.json.string(word)
    }

    /// A number.
    pub fn count(&mut self, key: &str, count: u64) -> Result<(), AllocError> {
        self.json.key(key)?;
        self.json.u64(count)
    }

    /// A process, by its slot.
    pub fn pid(&mut self, key: &str, pid: Pid) -> Result<(), AllocError> {
        self.count(key, pid.index() as u64)
    }

    /// `true` or `false`.
    pub fn truth(&mut self, key: &str, truth: bool) -> Result<(), AllocError> {
        self.json.key(key)?;
        self.json.boolean(truth)
    }

    /// `null`.
    pub fn nothing(&mut self, key: &str) -> Result<(), AllocError> {
        self.json.key(key)?;
        self.json.null()
    }

    /// Bytes: a string where they are UTF-8, else an object with their base64.
    pub fn bytes(&mut self, key: &str, bytes: &[u8]) -> Result<(), AllocError> {
        self.json.key(key)?;
        self.raw_bytes(bytes)
    }

    /// Bytes, in a list.
    pub fn raw_bytes(&mut self, bytes: &[u8]) -> Result<(), AllocError> {
        match str::from_utf8(bytes) {
            Ok(text) => self.json.string(text),
            Err(_) => self.base64(bytes),
        }
    }

    fn base64(&mut self, bytes: &[u8]) -> Result<(), AllocError> {
        let code = STANDARD.encode(self.alloc, bytes)?;
        self.json.begin_object()?;
        self.json.key("base64")?;
        self.json.string(code.as_str())?;
        self.json.end_object()
    }

    /// A number, in a list.
    pub fn raw_count(&mut self, count: u64) -> Result<(), AllocError> {
        self.json.u64(count)
    }

    /// A word, in a list.
    pub fn raw_word(&mut self, word: &str) -> Result<(), AllocError> {
        self.json.string(word)
    }

    /// Opens an object.
    pub fn begin_object(&mut self, key: &str) -> Result<(), AllocError> {
        self.json.key(key)?;
        self.json.begin_object()
    }

    /// Opens an object, in a list.
    pub fn begin_raw_object(&mut self) -> Result<(), AllocError> {
        self.json.begin_object()
    }

    /// Closes the object that was opened last.
    pub fn end_object(&mut self) -> Result<(), AllocError> {
        self.json.end_object()
    }

    /// Opens a list.
    pub fn begin_list(&mut self, key: &str) -> Result<(), AllocError> {
        self.json.key(key)?;
        self.json.begin_array()
    }

    /// Closes the list that was opened last.
    pub fn end_list(&mut self) -> Result<(), AllocError> {
        self.json.end_array()
    }
}
