//! The counts of `wc` (`user/wc.c`).
ghost use Rattle.std.specs.Prelude.{◌≡◌, ◌≤◌, length};
ghost use Rattle.prog_parts.specs.Wc.{line_ends, words_after, ends_inside};

use sh_lexer::is_white;

/// What `wc` counts in some bytes (`user/wc.c`).
#[derive(Clone, Copy, Debug, PartialEq, Eq)]
pub struct Counted {
    /// How many LFs there are.
    pub lines: u64,
    /// How many words begin.
    pub words: u64,
    /// Whether the bytes end inside a word.
    pub is_inside: bool,
}

// So few bytes that a byte holds each of their counts.
const FEW: usize = 128;

// The counts of few bytes, as numbers of 8 bits: so the compiler can count many bytes at a time.
fn count_few(bytes: &[u8], is_inside: bool) -> (u8, u8, bool)
    requires { length bytes.now ≤ FEW }
    ensures lines { result.0 ≡ line_ends bytes.now }
    ensures words { result.1 ≡ words_after is_inside bytes.now }
    ensures few_lines { result.0 ≤ length bytes.now }
    ensures few_words { result.1 ≤ length bytes.now }
    ensures inside { result.2 ≡ ends_inside is_inside bytes.now }
{
    let mut lines = 0u8;
    let mut words = 0u8;
    let mut inside = is_inside;
    for byte in bytes {
        lines += u8::from(*byte == b'\n');
        let is_word_byte = !is_white(*byte);
        words += u8::from(is_word_byte && !inside);
        inside = is_word_byte;
    }
    (lines, words, inside)
}

/// How many LFs the bytes have, how many words begin in them, and whether they end inside a word;
/// `is_inside` says whether the byte before them belongs to a word. White space is space, tab, LF,
/// vertical tab and CR (`user/wc.c`'s `wc`).
pub fn count(bytes: &[u8], is_inside: bool) -> Counted
    ensures lines { result.lines ≡ line_ends bytes.now }
    ensures words { result.words ≡ words_after is_inside bytes.now }
    ensures few_lines { result.lines ≤ length bytes.now }
    ensures few_words { result.words ≤ length bytes.now }
    ensures inside { result.is_inside ≡ ends_inside is_inside bytes.now }
{
    let mut counted = Counted {
        lines: 0,
        words: 0,
        is_inside,
    };
    let mut left = bytes;
    while !left.is_empty() {
        let (few, rest) = left.split_at(left.len().min(FEW));
        let (lines, words, inside) = count_few(few, counted.is_inside);
        counted.lines += u64::from(lines);
        counted.words += u64::from(words);
        counted.is_inside = inside;
        left = rest;
    }
    counted
}
