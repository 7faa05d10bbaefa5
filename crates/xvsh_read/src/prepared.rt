//! What a run begins with whose script was read before.
ghost use Rattle.std.specs.Prelude.{◌≡◌, ◌≢◌, List, Option, ℕ, codes, IfOk, IfErr, false};
ghost use Rattle.script_load.specs.Line.{lines_of};
ghost use Rattle.xvsh_read.specs.Path.{Path};
ghost use Rattle.xvsh_read.specs.Reading.{Agree, told_at};
ghost use Rattle.xvsh_read.specs.Starting.{IsStartFault, Starts};

use crate::fault::Fault;
use crate::host::Host;
use crate::reading::read_files;
use crate::starting::{Source, Start, read_stdin};
use mem_files::laws::are_files;
use script_load::load_with;
use std::alloc::Global;

/// What a run begins with whose script has these bytes, which were read at its path: loads them, and reads the files in order,
/// each under its name as in `prepare`, and standard input, of which none is left where it is the script. The
/// faults are those of `prepare` but that the script can't be read (own).
pub fn prepare_read<'a, H: Host>(
    alloc: Global,
    host: &mut H,
    source: &Source<'a>,
    bytes: &[u8],
) -> Result<Start, Fault<'a>>
    ensures prepared { IfOk result (λ start. (input : Option (List ℕ)) (file : Path → Option (List ℕ)) → H.file host.old ≡ file → (source.now.script.now ≢ codes "-" → H.input host.old ≡ input) → Agree (told_at input file source.now.script.now) bytes.now
        → (starts : Starts input file false source.now.script.now source.now.files.now (lines_of start.script.lines) start.files start.stdin.items) × (starts.loaded.bytes ≡ bytes.now)) }
    ensures profile { IfOk result (λ start. start.script.profile ≡ source.now.profile) }
    ensures fault { IfErr result (λ fault. (input : Option (List ℕ)) (file : Path → Option (List ℕ)) → H.file host.old ≡ file → (source.now.script.now ≢ codes "-" → H.input host.old ≡ input) → Agree (told_at input file source.now.script.now) bytes.now
        → IsStartFault input file false source.now.script.now source.now.files.now fault) }
{
    let loaded = load_with(alloc, bytes, source.profile)?;
    let files = read_files(alloc, host, source.files)?;
    are_files(&files);
    let stdin = read_stdin(alloc, host, source.script, false)?;
    Ok(Start {
        script: loaded,
        stdin,
        files,
    })
}
