//! The lines of `grep` (`user/grep.c`).
ghost use Rattle.std.specs.Prelude.{◌≡◌, ◌++◌, OnOk, IfOk, drop};
ghost use Rattle.prog_parts.specs.Grep.{grep_out, grep_left, untested};
ghost use Rattle.plain_run.specs.Gives.{Extends};

use crate::filter::Filter;
use grep_match::is_match;
use prog_parts::{BUFFER, is_whole, split_line};
use std::alloc::{AllocError, Allocator};

// Adds the tested lines that match, and returns what follows the tested ones.
fn grep_lines<'i, A: Allocator>(
    pattern: &[u8],
    input: &'i [u8],
    out: &mut Vec<u8, A>,
) -> Result<&'i [u8], AllocError>
    ensures out { OnOk result (out.new.items ≡ out.old.items ++ grep_out pattern.now input.now) }
    ensures rest { IfOk result (λ rest. rest.now ≡ untested input.now) }
    ensures kept { Extends out.old.items out.new.items }
{
    let mut rest = input;
    while let Some((line, after)) = split_line(rest) {
        if !is_whole(line) {
            return Ok(rest);
        }
        if is_match(pattern, line) {
            out.extend_from_slice(line)?;
            out.push(b'\n')?;
        }
        rest = after;
    }
    Ok(rest)
}

// What follows the bytes that fill the buffer.
fn after_buffer(bytes: &[u8]) -> &[u8]
    ensures { result.now ≡ drop 1023 bytes.now }
{
    if bytes.len() <= BUFFER {
        return &[];
    }
    &bytes[BUFFER..]
}

#[derive(Drop)]
pub struct Grep<'p> {
    pub pattern: &'p [u8],
}

impl Filter for Grep<'_> {
    ghost written = { λ g name bytes. grep_out g.pattern.now bytes };

    ghost left = { λ _ bytes. grep_left bytes };

    fn work<'i, A: Allocator + Copy>(
        &self,
        _alloc: A,
        _name: &[u8],
        input: &'i [u8],
        out: &mut Vec<u8, A>,
    ) -> Result<&'i [u8], AllocError> {
        let rest = grep_lines(self.pattern, input, out)?;
        Ok(after_buffer(rest))
    }
}
