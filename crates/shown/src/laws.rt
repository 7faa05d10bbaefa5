//! Laws of what is shown: each function's contract is the law, and its body is empty.

ghost use Rattle.std.specs.Prelude.{◌≡◌, ◌<◌, ℕ, All, List, true};
ghost use Rattle.std.specs.List.{list_all};
ghost use Rattle.shown.specs.Shown.{is_name_text, is_printable, shown, shown_name};

/// What bytes are shown as is printable ASCII: it begins no line, and gives a terminal no command. What a name is shown as has bytes
/// above ASCII beside that, and nothing else.
pub fn what_is_shown_is_printable()
    ensures bytes { (bytes : List ℕ) → All (λ byte. byte < 256) bytes → list_all is_printable (shown bytes) ≡ true }
    ensures names { (name : List ℕ) → All (λ byte. byte < 256) name → list_all is_name_text (shown_name name) ≡ true }
{}
