//! The first bytes of some.

ghost use Rattle.std.specs.Prelude.{◌≡◌, ◌≤◌, length, take};

/// The first `count` bytes, or all of them where there are fewer, where they lie (own).
pub fn first_bytes(bytes: &[u8], count: usize) -> &[u8]
    ensures value { result.now ≡ take count bytes.now }
    ensures within { length result.now ≤ count }
{
    &bytes[..count.min(bytes.len())]
}
