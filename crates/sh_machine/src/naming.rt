//! Names for scripts.

use std::marker::Brand;

/// Names one script. All machines of one type are on the script that this names, so two of them are compared without
/// reading it. A call that passes `Brand` picks which, in its proof; at run time there is nothing of it.
pub trait Naming {
    ghost use Rattle.std.specs.Prelude.{List};
    ghost use Rattle.script_load.specs.Line.{ScriptLine};

    /// The script's lines.
    ghost script: { List ScriptLine };
}

impl Naming for Brand {
    ghost use Rattle.std.specs.Prelude.{[]};

    ghost script = { [] };
}
