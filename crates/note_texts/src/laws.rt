//! Laws of the definitions, each the contract of a function that does nothing.
ghost use Rattle.std.specs.Prelude.{◌≡◌, [], ◌↔◌, ℕ, List};
ghost use Rattle.script_notes.specs.Noted.{HasNoNotes};
ghost use Rattle.note_texts.specs.Explained.{IsExplained};

/// The text of a script's notes is empty exactly where no line of it has a note.
pub fn nothing_to_tell()
    ensures { (bytes : List ℕ) → IsExplained bytes [] ↔ HasNoNotes bytes }
{}

/// A script's notes have one text.
pub fn one_text()
    ensures { (bytes text other : List ℕ) → IsExplained bytes text → IsExplained bytes other → text ≡ other }
{}
