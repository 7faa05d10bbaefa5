//! Laws of the definitions, each the contract of a function that does nothing.
ghost use Rattle.std.specs.Prelude.{◌≡◌, ℕ, List};
ghost use Rattle.script_load.specs.Line.{ScriptLine};
ghost use Rattle.script_load.specs.Script.{AllFine, IsScript};

/// Bytes of which every line is fine have exactly one script, and other bytes have none.
pub fn one_script()
    ensures exists { (bytes : List ℕ) → AllFine bytes → (lines : List ScriptLine) × IsScript bytes lines }
    ensures unique { (bytes : List ℕ) (lines others : List ScriptLine) → IsScript bytes lines → IsScript bytes others → lines ≡ others }
    ensures fine { (bytes : List ℕ) (lines : List ScriptLine) → IsScript bytes lines → AllFine bytes }
{}
