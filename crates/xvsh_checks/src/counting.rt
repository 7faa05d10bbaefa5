//! What `check --turns` finds: in the lines of a script, and the turns that are enough for it.
ghost use Rattle.std.specs.Prelude.{IfOk, IfErr};
ghost use Rattle.mem_files.specs.Files.{files};
ghost use Rattle.script_load.specs.Line.{lines_of};
ghost use Rattle.xvsh_checks.specs.Turns.{AreTurnsFound, IsTurnsFault, RanTurns};

use crate::finding::{Findings, find};
use crate::request::CheckRequest;
use mem_files::Files;
use script_load::{Profile, Script};
use std::alloc::Global;
use step_bounds::turns_enough;
use xvsh_read::{Fault, Host, Source, prepare};

/// What `check --turns` finds in a script.
#[derive(Drop)]
pub struct CountedFindings {
    /// What is found in its lines.
    pub findings: Findings,
    /// In how many turns the script runs to its end; nothing where these are more than 1,000,000,000.
    pub turns: Option<u64>,
}

// In how many turns a script runs to its end, if these are not too many.
fn turns_of(script: &Script<Global>, stdin: &[u8], given: &Files<Global>) -> Option<u64>
    ensures { AreTurnsFound (lines_of script.now.lines) stdin.now (files given.now) result }
{
    turns_enough(script, stdin, given)
}

/// `check --turns`: reads the script, the files in order, and standard input unless that is the script, and returns what is found in the
/// script's lines, and in how many turns a run by its processes is finished, whatever their order (own). Nothing is written.
pub fn run_count<'a, H: Host>(
    alloc: Global,
    request: &CheckRequest<'a>,
    host: &mut H,
) -> Result<CountedFindings, Fault<'a>>
    ensures ran { IfOk result (λ counted. RanTurns (H.input host.old) (H.file host.old) request.now.script.now request.now.files.now request.now.is_strict counted.findings.is_harmless counted.findings.list.items counted.turns) }
    ensures fault { IfErr result (IsTurnsFault (H.input host.old) (H.file host.old) request.now.script.now request.now.files.now) }
{
    let source = Source {
        profile: Profile::Xv6,
        script: request.script,
        files: request.files,
    };
    let start = prepare(alloc, host, &source, false)?;
    let findings = find(alloc, &start.script, request.is_strict)?;
    let turns = turns_of(&start.script, start.stdin.as_slice(), &start.files);
    Ok(CountedFindings { findings, turns })
}
