//! Laws of the definitions, each the contract of a function that does nothing.
ghost use Rattle.std.specs.Prelude.{◌≡◌, [], ◌↔◌, ℕ, List};
ghost use Rattle.script_notes.specs.Noted.{IsNoted, HasNoNotes};
ghost use Rattle.script_notes.specs.Notes.{NoteAt};

/// The notes of a script are none exactly where no line of it has a note.
pub fn no_notes()
    ensures { (bytes : List ℕ) → IsNoted bytes [] ↔ HasNoNotes bytes }
{}

/// A script has one list of notes.
pub fn one_list()
    ensures { (bytes : List ℕ) (notes others : List NoteAt) → IsNoted bytes notes → IsNoted bytes others → notes ≡ others }
{}
