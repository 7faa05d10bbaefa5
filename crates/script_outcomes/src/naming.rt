//! The word that names two outcomes.
ghost use Rattle.std.specs.Prelude.{◌≡◌, ◌+◌, IfSome};
ghost use Rattle.std.specs.Fmt.{decimal};
ghost use Rattle.script_outcomes.specs.Named.{IsNamed};

use crate::pair::Pair;
use schedule_lines::number_of;

// The place of the outcome whose number, counted from 1, is written so.
fn place_of(text: &[u8]) -> Option<usize>
    ensures { IfSome result (λ place. text.now ≡ decimal (place + 1)) }
{
    let number = number_of(text)?;
    if number == 0 {
        return None;
    }
    Some((number - 1) as usize)
}

/// The pair that a word names, `N,M`: the outcomes of these two numbers, counted from 1, in the order of the list (own). `None` of any
/// other word, and of one number twice.
pub fn named_pair(word: &str) -> Option<Pair>
    ensures { IfSome result (IsNamed word.now) }
{
    let (one, two) = word.split_once(',')?;
    let first = place_of(one.as_bytes())?;
    let other = place_of(two.as_bytes())?;
    if first < other {
        Some(Pair { first, other })
    } else if other < first {
        Some(Pair {
            first: other,
            other: first,
        })
    } else {
        None
    }
}
