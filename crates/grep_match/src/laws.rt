//! Laws of the definitions, each the contract of a function that does nothing.
ghost use Rattle.std.specs.Prelude.{◌≡◌, ℕ, List, true, ◌↔◌};
ghost use Rattle.grep_match.specs.Match.{IsMatch, matches};

/// The test that searches all cuts of the text finds exactly the texts of which a part is made of pieces.
pub fn matches_is_pieces()
    ensures { (pattern text : List ℕ) → (matches pattern text ≡ true) ↔ IsMatch pattern text }
{}
