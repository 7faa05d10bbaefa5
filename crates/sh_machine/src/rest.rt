//! How far a top shell is in its script.

ghost use Rattle.std.specs.Prelude.{map};
ghost use Rattle.script_load.specs.Line.{line_of};
ghost use Rattle.sh_machine.specs.End.{IsEnd, end_fact};

use crate::naming::Naming;
use script_load::{Line, Script};
use std::alloc::Allocator;
use std::marker::PhantomData;

// The last lines of the script that `N` names. Two values of this type are ends of one script, so they are equal where
// they have as many lines.
#[derive(Drop)]
pub struct Rest<'t, A: Allocator, N: Naming> {
    lines: &'t [Line<A>],
    of: PhantomData<N>,
    ghost end: { IsEnd N.script (map line_of lines.now) } by { end_fact N.script (map line_of lines.now) },
}

impl<'t, A: Allocator, N: Naming> Rest<'t, A, N> {
    ghost use Rattle.std.specs.Prelude.{◌≡◌, ◌↔◌, IsTrue, drop, map};
    ghost use Rattle.script_load.specs.Line.{line_of, lines_of};
    ghost use Rattle.sh_machine.specs.View.{rest_of};

    // The whole script.
    pub fn whole(script: &'t Script<A>) -> Self
        requires { lines_of script.now.lines ≡ N.script }
        ensures { rest_of result ≡ N.script }
    {
        Rest {
            lines: script.lines.as_slice(),
            of: PhantomData,
        }
    }

    /// The lines that are still to be run.
    pub fn lines(&self) -> &'t [Line<A>]
        ensures { map line_of result.now ≡ rest_of self.now }
    {
        self.lines
    }

    // The lines after the first.
    pub fn later(&self) -> Self
        ensures { rest_of result ≡ drop 1 (rest_of self.now) }
    {
        let Some((_, lines)) = self.lines.split_first() else {
            return self.twin();
        };
        Rest {
            lines,
            of: PhantomData,
        }
    }

    /// An equal one.
    pub fn twin(&self) -> Self
        ensures { rest_of result ≡ rest_of self.now }
    {
        Rest {
            lines: self.lines,
            of: PhantomData,
        }
    }

    // In constant time.
    pub fn same(&self, other: &Self) -> bool
        ensures { IsTrue result ↔ (rest_of self.now ≡ rest_of other.now) }
    {
        self.lines.len() == other.lines.len()
    }
}
