//! Puts the two sides of a pipe on two lines.
ghost use Rattle.std.specs.Prelude.{◌≡◌, ◌<◌, ◌^◌, ◌++◌, IfOk, IfSome, MatchOption, None, OnOk, Some, length};
ghost use Rattle.script_mends.specs.Mends.{cut_begin, cut_end, deeper, from_file, into_file, is_sign, over_file, sign_place};

use std::alloc::{AllocError, Global};

// How many parentheses are open behind a byte.
fn deeper(depth: usize, byte: u8) -> usize
    requires { depth < 2 ^ 63 }
    ensures { result ≡ deeper depth byte }
{
    match byte {
        b'(' => depth + 1,
        b')' => depth.saturating_sub(1),
        _ => depth,
    }
}

fn is_sign(signs: &[u8], byte: u8) -> bool
    ensures { result ≡ is_sign signs.now byte }
{
    signs.iter().any(|sign| *sign == byte)
}

// The place of the first of these signs outside parentheses.
fn sign_place(signs: &[u8], text: &[u8]) -> Option<usize>
    ensures same { result ≡ sign_place signs.now text.now }
    ensures inside { IfSome result (λ at. at < length text.now) }
{
    let mut rest = text;
    let mut count: usize = 0;
    let mut depth: usize = 0;
    while let Some((byte, after)) = rest.split_first() {
        if depth == 0 && is_sign(signs, *byte) {
            return Some(count);
        }
        count += 1;
        depth = deeper(depth, *byte);
        rest = after;
    }
    None
}

// Without a blank at the beginning.
fn cut_begin(text: &[u8]) -> &[u8]
    ensures { result.now ≡ cut_begin text.now }
{
    match text.split_first() {
        Some((byte, after)) if *byte == b' ' => after,
        _ => text,
    }
}

// Without a blank at the end.
fn cut_end(text: &[u8]) -> &[u8]
    ensures { result.now ≡ cut_end text.now }
{
    if !text.is_empty() && text[text.len() - 1] == b' ' {
        &text[..text.len() - 1]
    } else {
        text
    }
}

// Adds `LEFT > NAME`.
fn add_into_file(name: &[u8], left: &[u8], lines: &mut Vec<u8>) -> Result<(), AllocError>
    ensures { OnOk result (lines.new.items ≡ lines.old.items ++ into_file name.now left.now) }
{
    lines.extend_from_slice(cut_end(left))?;
    lines.extend_from_slice(b" > ".as_slice())?;
    lines.extend_from_slice(name)
}

// Adds `RIGHT < NAME`, where the first command of `RIGHT` takes its input from the file.
fn add_from_file(name: &[u8], right: &[u8], lines: &mut Vec<u8>) -> Result<(), AllocError>
    ensures { OnOk result (lines.new.items ≡ lines.old.items ++ from_file name.now right.now) }
{
    match sign_place(b"|;&".as_slice(), right) {
        None => {
            lines.extend_from_slice(cut_end(right))?;
            lines.extend_from_slice(b" < ".as_slice())?;
            lines.extend_from_slice(name)
        }
        Some(at) => {
            lines.extend_from_slice(cut_end(&right[..at]))?;
            lines.extend_from_slice(b" < ".as_slice())?;
            lines.extend_from_slice(name)?;
            lines.extend_from_slice(b" ".as_slice())?;
            lines.extend_from_slice(&right[at..])
        }
    }
}

/// The line `LEFT | RIGHT` as the lines `LEFT > NAME` and `RIGHT < NAME`, at its first `|` outside parentheses, if it has one.
pub fn over_file(alloc: Global, name: &[u8], text: &[u8]) -> Result<Option<Vec<u8>>, AllocError>
    ensures { IfOk result (λ found. MatchOption found (over_file name.now text.now ≡ None) (λ lines. over_file name.now text.now ≡ Some lines.items)) }
{
    let Some(at) = sign_place(b"|".as_slice(), text) else {
        return Ok(None);
    };
    let mut lines = Vec::new(alloc);
    add_into_file(name, &text[..at], &mut lines)?;
    lines.push(b'\n')?;
    add_from_file(name, cut_begin(&text[at + 1..]), &mut lines)?;
    Ok(Some(lines))
}
