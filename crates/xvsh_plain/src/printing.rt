//! What is printed of a script's outcome.
ghost use Rattle.std.specs.Prelude.{◌≡◌, ◌↔◌, [], IfOk, Contains, List, ℕ, true};
ghost use Rattle.mem_files.specs.Files.{files};
ghost use Rattle.mem_files.specs.Listing.{AreFiles};
ghost use Rattle.meaning_model.specs.Value.{Value};
ghost use Rattle.xvsh_plain.specs.Running.{IsRunText};
ghost use Rattle.xvsh_read.specs.Writing.{out_text};

use mem_files::Files;
use plain_run::Plain;
use std::alloc::{AllocError, Global};
use xvsh_read::{Output, listing};

/// What a run by meaning prints, and the files that it leaves.
#[derive(Drop)]
pub struct PrintedRun {
    pub output: Output,
    pub files: Files<Global>,
}

/// What a run with this outcome prints: its output, and the list of all files if that is requested (own).
///
/// `AllocError` where memory is refused.
pub fn printed(
    alloc: Global,
    outcome: Plain<Global>,
    lists_files: bool,
) -> Result<PrintedRun, AllocError>
    ensures meaning { IfOk result (λ run. (value : Value) → AreFiles outcome.files → outcome.out ≡ value.out → ((name : List ℕ) → files outcome.files name ≡ value.files name) → ((name : List ℕ) → Contains outcome.soft name ↔ (value.soft name ≡ true))
        → IsRunText lists_files value (out_text run.output)) }
    ensures err { IfOk result (λ run. run.output.err.items ≡ []) }
{
    let list = if lists_files {
        listing(alloc, &outcome.files, outcome.soft.as_slice())?
    } else {
        Vec::new(alloc)
    };
    Ok(PrintedRun {
        output: Output {
            out: outcome.out,
            files: list,
            events: Vec::new(alloc),
            err: Vec::new(alloc),
        },
        files: outcome.files,
    })
}
