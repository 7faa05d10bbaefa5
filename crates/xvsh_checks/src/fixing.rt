//! What `explain --fix` does.
ghost use Rattle.std.specs.Prelude.{IfErr, IfOk, MatchOption};
ghost use Rattle.mem_files.specs.Files.{files};
ghost use Rattle.xvsh_checks.specs.Fixes.{HasNoFix, IsFix, IsFixFault, RanFix, RanNoFix};
ghost use Rattle.xvsh_checks.specs.Whys.{IsWhysFault};

use crate::request::ExplainRequest;
use script_mends::{MendFault, Task, mend};
use std::alloc::Global;
use xvsh_plain::of_plain;
use xvsh_read::{Fault, Host, MAX_INPUT, Start, prepare_read, read};

// The script of these bytes, mended on what was read, if mends make it settled.
fn mended<'a>(alloc: Global, bytes: &[u8], start: &Start) -> Result<Option<Vec<u8>>, Fault<'a>>
    ensures found { IfOk result (λ found. MatchOption found
        (HasNoFix start.now.script.profile start.now.stdin.items (files start.now.files) bytes.now)
        (λ text. IsFix start.now.script.profile start.now.stdin.items (files start.now.files) bytes.now text.items)) }
    ensures fault { IfErr result (IsFixFault start.now.script.profile start.now.stdin.items (files start.now.files) bytes.now) }
{
    let task = Task {
        profile: start.script.profile,
        stdin: start.stdin.as_slice(),
        files: &start.files,
    };
    match mend(alloc, bytes, &task) {
        Ok(found) => Ok(found),
        Err(MendFault::Load(fault)) => Err(Fault::from(fault)),
        Err(MendFault::Plain(fault)) => Err(of_plain(fault)),
    }
}

/// `explain --fix`: reads the script, the files in order, and standard input unless that is the script, and returns the script mended
/// by rules, so that it is settled on these files and this input, and unchanged where it is so already; or `None` where no mends make
/// it so (own). The script, and each on the way, is run by its meaning. Nothing is written.
pub fn run_fix<'a, H: Host>(
    alloc: Global,
    request: &ExplainRequest<'a>,
    host: &mut H,
) -> Result<Option<Vec<u8>>, Fault<'a>>
    ensures ran { IfOk result (λ found. MatchOption found
        (RanNoFix (H.input host.old) (H.file host.old) request.now.source.profile request.now.source.script.now request.now.source.files.now)
        (λ text. RanFix (H.input host.old) (H.file host.old) request.now.source.profile request.now.source.script.now request.now.source.files.now text.items)) }
    ensures fault { IfErr result (IsWhysFault (H.input host.old) (H.file host.old) request.now.source.profile request.now.source.script.now request.now.source.files.now) }
{
    let bytes = read(alloc, host, request.source.script, MAX_INPUT)?;
    let start = prepare_read(alloc, host, &request.source, bytes.as_slice())?;
    mended(alloc, bytes.as_slice(), &start)
}
