//! Where two byte strings part.

ghost use Rattle.std.specs.Prelude.{◌≡◌};
ghost use Rattle.run_figure.specs.Bytes.{BeginSame, is_same_byte};

// Whether both have a byte at this place, counted from 0, and these are the same.
fn is_same_byte(one: &[u8], other: &[u8], place: usize) -> bool
    ensures { result ≡ is_same_byte one.now other.now place }
{
    match (one.get(place), other.get(place)) {
        (Some(one), Some(other)) => *one == *other,
        _ => false,
    }
}

/// With how many same bytes both begin. Own.
pub fn common_bytes(one: &[u8], other: &[u8]) -> usize
    ensures { BeginSame one.now other.now result }
{
    for place in 0..one.len() {
        if !is_same_byte(one, other, place) {
            return place;
        }
    }
    one.len()
}
