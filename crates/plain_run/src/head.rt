//! The first lines of `head` (own: xv6 has none).
ghost use Rattle.std.specs.Prelude.{◌≡◌, ◌≤◌, ◌==◌, length, take, if◌then◌else◌};
ghost use Rattle.prog_parts.specs.Head.{first_lines, after_lines};

use crate::filter::Filter;
use std::alloc::{AllocError, Allocator};

// How many lines end with this byte.
fn lines_ended(byte: u8) -> u32
    ensures { result ≡ (if byte == 10 then 1 else 0) }
{
    if byte == b'\n' { 1 } else { 0 }
}

// How many bytes the shortest prefix with so many LFs has, or all where there are fewer.
fn prefix_length(count: u32, bytes: &[u8]) -> usize
    ensures within { result ≤ length bytes.now }
    ensures prefix { take result bytes.now ≡ first_lines count bytes.now }
{
    let mut left = count;
    for (i, byte) in bytes.iter().enumerate() {
        if left == 0 {
            return i;
        }
        left -= lines_ended(*byte);
    }
    bytes.len()
}

#[derive(Drop)]
pub struct Head {
    pub count: u32,
}

impl Filter for Head {
    ghost written = { λ h name bytes. first_lines h.count bytes };

    ghost left = { λ h bytes. after_lines h.count bytes };

    fn work<'i, A: Allocator + Copy>(
        &self,
        _alloc: A,
        _name: &[u8],
        input: &'i [u8],
        out: &mut Vec<u8, A>,
    ) -> Result<&'i [u8], AllocError> {
        let (first, rest) = input.split_at(prefix_length(self.count, input));
        out.extend_from_slice(first)?;
        Ok(rest)
    }
}
