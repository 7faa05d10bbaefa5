//! What has been read so far.

use crate::fault::Wrong;
use crate::fields::field;
use crate::trace::{Event, FileState, Part, PipeState};
use base64::DecodeAllocError;
use base64::engine::general_purpose::STANDARD;
use json::Value;
use std::alloc::{AllocError, Allocator};

/// The lists of a trace, as they grow.
#[derive(Drop)]
pub struct Kept<A: Allocator + Copy> {
    pub alloc: A,
    pub bytes: Vec<u8, A>,
    pub words: Vec<Part, A>,
    pub events: Vec<Event, A>,
    pub pipes: Vec<PipeState, A>,
    pub files: Vec<FileState, A>,
}

impl<A: Allocator + Copy> Kept<A> {
    pub(crate) fn new(alloc: A) -> Self {
        Kept {
            alloc,
            bytes: Vec::new(alloc),
            words: Vec::new(alloc),
            events: Vec::new(alloc),
            pipes: Vec::new(alloc),
            files: Vec::new(alloc),
        }
    }

    // Keeps bytes.
    fn keep(&mut self, bytes: &[u8]) -> Result<Part, AllocError> {
        let first = self.bytes.len();
        self.bytes.extend_from_slice(bytes)?;
        Ok(Part {
            first,
            past: self.bytes.len(),
        })
    }

    // Keeps what a value stands for: the bytes of a text, or those that its base64 has.
    pub(crate) fn keep_value(
        &mut self,
        value: &Value<'_, A>,
        name: &'static str,
    ) -> Result<Part, Wrong> {
        if let Some(text) = value.as_str() {
            return Ok(self.keep(text.as_bytes())?);
        }
        let Some(code) = value.get("base64") else {
            return Err(Wrong::Field(name));
        };
        let Some(code) = code.as_str() else {
            return Err(Wrong::Field(name));
        };
        match STANDARD.decode(self.alloc, code.as_bytes()) {
            Ok(bytes) => Ok(self.keep(bytes.as_slice())?),
            Err(DecodeAllocError::OutOfMemory) => Err(Wrong::Memory),
            Err(_) => Err(Wrong::Field(name)),
        }
    }

    // Keeps the bytes of a field.
    pub(crate) fn keep_field(
        &mut self,
        value: &Value<'_, A>,
        name: &'static str,
    ) -> Result<Part, Wrong> {
        self.keep_value(field(value, name)?, name)
    }

    // Keeps the bytes of a field that may be left out.
    pub(crate) fn keep_optional(
        &mut self,
        value: &Value<'_, A>,
        name: &'static str,
    ) -> Result<Option<Part>, Wrong> {
        match value.get(name) {
            None => Ok(None),
            Some(value) => Ok(Some(self.keep_value(value, name)?)),
        }
    }
}
