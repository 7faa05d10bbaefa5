//! Cutting a line into tokens (`user/sh.c`'s `gettoken`).

ghost use Rattle.std.specs.Prelude.{◌≡◌, ◌<◌, ◌≤◌, length, slice_index, IfOk, true, false};
ghost use Rattle.sh_lexer.specs.Tokens.{is_white, is_word_byte, IsTextOf, IsToken, IsTokenList};

use crate::token::{Kind, Token};
use std::alloc::{AllocError, Allocator};

/// Whether a byte is white space: space, tab, LF, vertical tab or CR (`user/sh.c`'s `whitespace`, and
/// what `user/wc.c` parts words by).
#[inline]
pub fn is_white(byte: u8) -> bool
    ensures { result ≡ is_white byte }
{
    // All five are compared, with no branch: white space in text is too irregular for branch prediction.
    (byte == b' ') | (byte == b'\t') | (byte == b'\n') | (byte == 11) | (byte == b'\r')
}

fn is_word_byte(byte: u8) -> bool
    ensures { result ≡ is_word_byte byte }
{
    !is_white(byte) && !matches!(byte, b'<' | b'|' | b'>' | b'&' | b';' | b'(' | b')')
}

// Where the word that begins at `first` ends.
fn word_end(line: &[u8], first: usize) -> usize
    requires inside { first < length line.now }
    requires word { is_word_byte (slice_index line.now first) ≡ true }
    ensures nonempty { first < result }
    ensures inside { result ≤ length line.now }
    ensures text { IsTextOf Kind.Word line.now first result }
{
    let mut past = first + 1;
    while past < line.len() && is_word_byte(line[past]) {
        past += 1;
    }
    past
}

// The token that begins at `first`.
fn token_at(line: &[u8], first: usize) -> Token
    requires inside { first < length line.now }
    requires starts { is_white (slice_index line.now first) ≡ false }
    ensures first { result.first ≡ first }
    ensures token { IsToken line.now result }
{
    let (kind, past) = match line[first] {
        b'<' => (Kind::Less, first + 1),
        b'>' if first + 1 < line.len() && line[first + 1] == b'>' => (Kind::MoreMore, first + 2),
        b'>' => (Kind::More, first + 1),
        b'|' => (Kind::Bar, first + 1),
        b'&' => (Kind::Amp, first + 1),
        b';' => (Kind::Semi, first + 1),
        b'(' => (Kind::LeftParen, first + 1),
        b')' => (Kind::RightParen, first + 1),
        _ => (Kind::Word, word_end(line, first)),
    };
    Token { kind, first, past }
}

/// The token list of a line (`user/sh.c`'s `gettoken`, called until the line's end).
///
/// Every line has exactly one, so nothing is refused. `AllocError` where the allocator refuses memory.
/// White space is space, tab, LF, vertical tab and CR. The signs are `<`, `|`, `>`, `&`, `;`, `(`
/// and `)`; `>>` is one token, from the left. All other bytes, byte 0 and those above 127
/// among them, make words. Places are bytes of the line, counted from 0.
pub fn tokens<A: Allocator>(alloc: A, line: &[u8]) -> Result<Vec<Token, A>, AllocError>
    ensures { IfOk result (λ all. IsTokenList line.now all.items) }
{
    let mut all = Vec::new(alloc);
    let mut at = 0;
    while at < line.len() {
        if is_white(line[at]) {
            at += 1;
        } else {
            let token = token_at(line, at);
            all.push(token)?;
            at = token.past;
        }
    }
    Ok(all)
}
