//! With which line of a script there may not be room.
ghost use Rattle.std.specs.Prelude.{IfErr, IfOk};
ghost use Rattle.script_load.specs.Line.{lines_of};
ghost use Rattle.script_load.specs.Script.{HasLoadFault};
ghost use Rattle.xvsh_checks.specs.Lacks.{IsLackNoted, IsLackOfText};

use crate::rooms::is_clear;
use room_bounds::{Lack, first_behind, first_crowded};
use script_load::{LoadFault, Script, load};
use std::alloc::Global;

/// The first line with which a script may need more processes, open files or descriptors than there are, or `None`; of a script with
/// a clash or a `&` the first with which it may need more processes or descriptors.
pub fn lack_of(script: &Script<Global>) -> Option<Lack>
    ensures { IsLackNoted (lines_of script.now.lines) result }
{
    if is_clear(script.lines.as_slice()) {
        first_crowded(script)
    } else {
        first_behind(script)
    }
}

/// The same of the script of these bytes.
pub(crate) fn lack_of_text(alloc: Global, bytes: &[u8]) -> Result<Option<Lack>, LoadFault>
    ensures told { IfOk result (IsLackOfText bytes.now) }
    ensures fault { IfErr result (HasLoadFault bytes.now) }
{
    let script = load(alloc, bytes)?;
    Ok(lack_of(&script))
}
