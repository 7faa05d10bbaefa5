//! The arguments of `head` (own: xv6 has none).
ghost use Rattle.std.specs.Prelude.{◌≡◌, ◌↔◌, true, IfSome, IsNone};
ghost use Rattle.std.specs.List.{list_all};
ghost use Rattle.std.specs.Str.Parse.{digits_value};
ghost use Rattle.prog_parts.specs.Head.{are_count_digits, has_wrong_option, head_files, is_count, is_digit, is_option, line_count};

use sh_lexer::Bytes;
use std::alloc::Allocator;

// It begins with `-`.
fn is_option(argument: &[u8]) -> bool
    ensures { result ≡ is_option argument.now }
{
    argument.first() == Some(&b'-')
}

fn is_digit(byte: u8) -> bool
    ensures { result ≡ is_digit byte }
{
    byte.is_ascii_digit()
}

fn are_digits(bytes: &[u8]) -> bool
    ensures { result ≡ list_all is_digit bytes.now }
{
    bytes.iter().all(|byte| is_digit(*byte))
}

// One to nine digits.
fn are_count_digits(digits: &[u8]) -> bool
    ensures { result ≡ are_count_digits digits.now }
{
    1 <= digits.len() && digits.len() <= 9 && are_digits(digits)
}

// `-` and one to nine digits.
fn is_count(argument: &[u8]) -> bool
    ensures { result ≡ is_count argument.now }
{
    match argument.split_first() {
        Some((byte, digits)) => *byte == b'-' && are_count_digits(digits),
        None => false,
    }
}

// The number that one to nine digits write.
fn number_of(bytes: &[u8]) -> u32
    requires { are_count_digits bytes.now ≡ true }
    ensures { result ≡ digits_value 10 bytes.now }
{
    let mut number = 0;
    for byte in bytes {
        number = number * 10 + u32::from(*byte - b'0');
    }
    number
}

/// How many lines `head` writes of each input, and the words that name its files, by its arguments (without
/// its own name): as many lines as a count `-N` of one to nine digits says, or 10 where there is none. `None`
/// where the first argument begins with `-` and is no count (own).
pub fn head_request<A: Allocator>(arguments: &[Bytes<A>]) -> Option<(u32, &[Bytes<A>])>
    ensures wrong { IsNone result ↔ (has_wrong_option arguments.now ≡ true) }
    ensures count { IfSome result (λ asked. asked.0 ≡ line_count arguments.now) }
    ensures names { IfSome result (λ asked. asked.1.now ≡ head_files arguments.now) }
{
    let Some((first, later)) = arguments.split_first() else {
        return Some((10, arguments));
    };
    let first = first.as_slice();
    if is_count(first) {
        Some((number_of(&first[1..]), later))
    } else if is_option(first) {
        None
    } else {
        Some((10, arguments))
    }
}
