//! Whether a script is settled, and why not.
ghost use Rattle.std.specs.Prelude.{◌≡◌, ◌↔◌, ℕ, List, Contains, IfOk, IfErr, IsTrue, true};
ghost use Rattle.mem_files.specs.Files.{files};
ghost use Rattle.script_load.specs.Line.{lines_of};
ghost use Rattle.meaning_model.specs.Meaning.{script_meaning};
ghost use Rattle.meaning_model.specs.Settled.{IsSettledScript};
ghost use Rattle.plain_run.specs.Reasons.{AreReasons};
ghost use Rattle.xvsh_plain.specs.Running.{IsMeaningFault};

use crate::reasoned::of_plain;
use plain_run::{Reason, Reasoned, plain_with_reasons};
use sh_tree::Words;
use std::alloc::Global;
use xvsh_read::{Fault, Start};

/// Whether a script is settled, and why it isn't.
#[derive(Drop)]
pub struct Verdict {
    pub is_settled: bool,
    /// The names of the files that are soft by the script's meaning.
    pub soft: Words<Global>,
    /// Why it isn't settled; nothing where it is.
    pub reasons: Vec<Reason<Global>>,
}

/// Runs what was read by its meaning, and returns whether its script is settled, which files are soft, and why it isn't (own). The faults are that it would
/// be too large, and that memory was refused.
pub fn verdict_of<'a>(alloc: Global, start: &Start) -> Result<Verdict, Fault<'a>>
    ensures settled { IfOk result (λ verdict. IsTrue verdict.is_settled ↔ IsSettledScript start.now.script.profile (lines_of start.now.script.lines) start.now.stdin.items (files start.now.files)) }
    ensures soft { IfOk result (λ verdict. (name : List ℕ) → Contains verdict.soft name ↔ ((script_meaning start.now.script.profile (lines_of start.now.script.lines) start.now.stdin.items (files start.now.files)).soft name ≡ true)) }
    ensures why { IfOk result (λ verdict. AreReasons start.now.script.profile (lines_of start.now.script.lines) start.now.stdin.items (files start.now.files) verdict.reasons.items) }
    ensures fault { IfErr result (IsMeaningFault start.now.script.profile (lines_of start.now.script.lines) start.now.stdin.items (files start.now.files)) }
{
    let stdin = start.stdin.as_slice();
    let reasoned = match plain_with_reasons(alloc, &start.script, stdin, &start.files) {
        Ok(reasoned) => reasoned,
        Err(fault) => return Err(of_plain(fault)),
    };
    let Reasoned { plain, reasons } = reasoned;
    Ok(Verdict {
        is_settled: plain.settled,
        soft: plain.soft,
        reasons,
    })
}
