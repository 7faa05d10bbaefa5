//! How a run ends whose diagnostics are printed with the lines of the script that they come from.
ghost use Rattle.std.specs.Prelude.{◌≡◌, ◌++◌, ℕ, List, Option, IfOk, IfSome};
ghost use Rattle.xvsh_read.specs.Path.{Path};
ghost use Rattle.xvsh_read.specs.Writing.{out_text};
ghost use Rattle.xvsh_traces.specs.Lined.{IsLined};
ghost use Rattle.xvsh_ends.specs.Ends.{Asked, IsDue, asks_lined, told_text};
ghost use Rattle.xvsh_ends.specs.Requests.{lined_asked};

use crate::ending::{Ending, Line, report_no_memory};
use std::alloc::Global;
use xvsh_read::Output;
use xvsh_traces::{TraceFault, lined};

// What goes to standard error, with the numbers of lines, if there was a run.
fn lined_told(alloc: Global, ending: &Ending) -> Result<Option<Vec<u8>>, TraceFault>
    ensures { IfOk result (λ told. IfSome told (λ text. IsLined (told_text ending.now) text.items)) }
{
    let Some(made) = &ending.recording else {
        return Ok(None);
    };
    let mut told = Vec::new(alloc);
    told.extend_from_slice(ending.output.err.as_slice())?;
    told.extend_from_slice(ending.line.as_bytes())?;
    let text = lined(
        alloc,
        &made.start,
        made.schedule.as_slice(),
        told.as_slice(),
    )?;
    Ok(Some(text))
}

// The ending, with another text on standard error.
fn with_told(ending: Ending, told: Vec<u8>) -> Ending
    ensures out { out_text result.output ≡ out_text ending.output }
    ensures told { told_text result ≡ told.items }
    ensures status { result.status ≡ ending.status }
    ensures bad { result.bad.items ≡ ending.bad.items }
    ensures dead { result.dead.items ≡ ending.dead.items }
{
    let Ending {
        output,
        line: _line,
        status,
        recording,
        left,
        hint,
        bad,
        dead,
    } = ending;
    Ending {
        output: Output {
            err: told,
            ..output
        },
        line: Line::Fixed(""),
        status,
        recording,
        left,
        hint,
        bad,
        dead,
    }
}

// Reports with the numbers of lines how a run has ended.
fn lined_ending(alloc: Global, ending: Ending) -> Ending
    ensures { (input : Option (List ℕ)) (file : Path → Option (List ℕ)) (what : Asked) → IsDue input file what ending → IsDue input file (asks_lined what) result }
{
    match lined_told(alloc, &ending) {
        Ok(Some(told)) => with_told(ending, told),
        Ok(None) => ending,
        Err(_) => report_no_memory(alloc),
    }
}

/// Reports with the numbers of the script's lines how a run has ended, if that is requested.
pub(crate) fn lined_if(alloc: Global, ending: Ending, is_lined: bool) -> Ending
    ensures { (input : Option (List ℕ)) (file : Path → Option (List ℕ)) (what : Asked) → IsDue input file what ending → IsDue input file (lined_asked is_lined what) result }
{
    if is_lined {
        lined_ending(alloc, ending)
    } else {
        ending
    }
}
