//! What a run of a script begins with.
ghost use Rattle.std.specs.Prelude.{◌≡◌, ◌≢◌, ◌⊎◌, codes, IfOk, IfErr, IsTrue, false};
ghost use Rattle.script_load.specs.Line.{lines_of};
ghost use Rattle.xvsh_read.specs.Reading.{max_input, IsReadFault};
ghost use Rattle.xvsh_read.specs.Words.{profile_of};
ghost use Rattle.xvsh_read.specs.Starting.{AreLinesAt, IsScriptAtFault, IsInputOf, IsStartFault, Starts};

use crate::fault::Fault;
use crate::host::Host;
use crate::reading::{MAX_INPUT, STDIN, read, read_files};
use mem_files::Files;
use mem_files::laws::are_files;
use script_load::{Profile, Script, load_with};
use std::alloc::Global;

/// What `>>` means, by whether `--append` is given.
pub fn profile_of(appends: bool) -> Profile
    ensures { result ≡ profile_of appends }
{
    if appends {
        Profile::Append
    } else {
        Profile::Xv6
    }
}

/// The script at a path, under this profile.
pub fn read_script<'a, H: Host>(
    alloc: Global,
    host: &mut H,
    profile: Profile,
    path: &'a str,
) -> Result<Script<Global>, Fault<'a>>
    ensures lines { IfOk result (λ script. AreLinesAt (H.input host.old) (H.file host.old) path.now (lines_of script.lines)) }
    ensures profile { IfOk result (λ script. script.profile ≡ profile) }
    ensures fault { IfErr result (IsScriptAtFault (H.input host.old) (H.file host.old) path.now) }
    ensures files_stay { H.file host.new ≡ H.file host.old }
    ensures input_stays { path.now ≢ codes "-" → H.input host.new ≡ H.input host.old }
{
    let bytes = read(alloc, host, path, MAX_INPUT)?;
    let script = load_with(alloc, bytes.as_slice(), profile)?;
    Ok(script)
}

// The standard input of the script at a path, unless it was taken before.
pub(crate) fn read_stdin<'a, H: Host>(
    alloc: Global,
    host: &mut H,
    script: &str,
    is_taken: bool,
) -> Result<Vec<u8>, Fault<'a>>
    ensures own { IfOk result (λ stdin. IsInputOf (H.input host.old) (H.file host.old) is_taken script.now stdin.items) }
    ensures free { IfErr result (λ _. (is_taken ≡ false) × (script.now ≢ codes "-")) }
    ensures fault { IfErr result (IsReadFault max_input (H.input host.old) (codes "-")) }
{
    if is_taken || script == STDIN {
        return Ok(Vec::new(alloc));
    }
    read(alloc, host, STDIN, MAX_INPUT)
}

/// Which script a command is about.
#[derive(Clone, Copy, Debug)]
pub struct Source<'a> {
    /// What `>>` means.
    pub profile: Profile,
    /// The path of the script; `-` is standard input.
    pub script: &'a str,
    /// The paths of the script's files, in order.
    pub files: &'a [&'a str],
}

/// What a run begins with.
#[derive(Drop)]
pub struct Start {
    pub script: Script<Global>,
    /// The standard input.
    pub stdin: Vec<u8>,
    pub files: Files<Global>,
}

/// Reads the script at a path, the files in order, and standard input, of which none is left where it was taken before or is
/// the script. The file of a FILE `NAME=PATH` has the name NAME, where NAME isn't empty and has no `/`, and that of any other path
/// the part after its last `/` (own).
pub fn prepare<'a, H: Host>(
    alloc: Global,
    host: &mut H,
    source: &Source<'a>,
    is_taken: bool,
) -> Result<Start, Fault<'a>>
    ensures prepared { IfOk result (λ start. Starts (H.input host.old) (H.file host.old) is_taken source.now.script.now source.now.files.now
        (lines_of start.script.lines) start.files start.stdin.items) }
    ensures profile { IfOk result (λ start. start.script.profile ≡ source.now.profile) }
    ensures fault { IfErr result (IsStartFault (H.input host.old) (H.file host.old) is_taken source.now.script.now source.now.files.now) }
{
    let loaded = read_script(alloc, host, source.profile, source.script)?;
    let files = read_files(alloc, host, source.files)?;
    are_files(&files);
    let stdin = read_stdin(alloc, host, source.script, is_taken)?;
    Ok(Start {
        script: loaded,
        stdin,
        files,
    })
}
