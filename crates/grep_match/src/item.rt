//! The items of a pattern.

ghost use Rattle.std.specs.Prelude.{◌≡◌, ◌<◌, ◌≤◌, ℕ, [], ◌∷◌, length, IfSome, IfNone};
ghost use Rattle.grep_match.specs.Pattern.{items_of, is_anchored, pattern_items, stands_for};

/// An item of a pattern, by the text that fits it.
#[derive(Clone, Copy, Debug, PartialEq, Eq)]
pub enum Item {
    /// One byte: the given one, or any if it is `.`.
    One(u8),
    /// Any number of such bytes.
    Star(u8),
    /// Nothing, at the text's end.
    End,
}

// Whether the pattern is anchored, and the bytes of its items.
pub fn split_anchor(pattern: &[u8]) -> (bool, &[u8])
    ensures anchored { result.0 ≡ is_anchored pattern.now }
    ensures items { items_of result.1.now ≡ pattern_items pattern.now }
    ensures fewer { length result.1.now ≤ length pattern.now }
{
    match pattern.split_first() {
        Some((b'^', rest)) => (true, rest),
        _ => (false, pattern),
    }
}

// The first item of a pattern behind its anchor, and the bytes of the others.
pub fn next_item(pattern: &[u8]) -> Option<(Item, &[u8])>
    ensures split { IfSome result (λ next. items_of pattern.now ≡ next.0 ∷ items_of next.1.now) }
    ensures one { IfSome result (λ next. (byte : ℕ) → next.0 ≡ Item.One byte → pattern.now ≡ byte ∷ next.1.now) }
    ensures last { IfSome result (λ next. next.0 ≡ Item.End → next.1.now ≡ []) }
    ensures fewer { IfSome result (λ next. length next.1.now < length pattern.now) }
    ensures none { IfNone result (pattern.now ≡ []) }
{
    let (&byte, after) = pattern.split_first()?;
    match after.split_first() {
        Some((b'*', rest)) => Some((Item::Star(byte), rest)),
        None if byte == b'$' => Some((Item::End, after)),
        _ => Some((Item::One(byte), after)),
    }
}

// Whether a text's byte is one that the pattern's byte stands for.
pub fn stands_for(byte: u8, other: u8) -> bool
    ensures { result ≡ stands_for byte other }
{
    byte == b'.' || byte == other
}
