//! The counts of `wc` (`user/wc.c`).
ghost use Rattle.std.specs.Prelude.{[]};
ghost use Rattle.prog_parts.specs.Wc.{wc_line};

use crate::filter::Filter;
use prog_parts::count;
use std::alloc::{AllocError, Allocator};

#[derive(Drop)]
pub struct Wc;

impl Filter for Wc {
    ghost written = { λ _ name bytes. wc_line name bytes };

    ghost left = { λ _ bytes. [] };

    fn work<'i, A: Allocator + Copy>(
        &self,
        alloc: A,
        name: &[u8],
        input: &'i [u8],
        out: &mut Vec<u8, A>,
    ) -> Result<&'i [u8], AllocError> {
        let counts = count(input, false);
        let text = format!(in alloc; "{} {} {} ", counts.lines, counts.words, input.len())?;
        out.extend_from_slice(text.as_bytes())?;
        out.extend_from_slice(name)?;
        out.push(b'\n')?;
        Ok(&[])
    }
}
