//! Why nothing is found.

use std::alloc::AllocError;
use std::fmt;
use xvsh_read::Fault;

/// Why `explore` fails. Each is reported as one line on standard error after `xvsh: `.
#[derive(Clone, Copy, Debug)]
pub enum ExploringFault<'a> {
    /// What any command meets that explores.
    Common(Fault<'a>),
    /// This word names no two outcomes.
    NoPair(&'a str),
    /// This word names an outcome that isn't among so many.
    NoOutcome(&'a str, usize),
}

impl fmt::Display for ExploringFault<'_> {
    fn fmt<W: fmt::Write>(&self, f: &mut fmt::Formatter<W>) -> fmt::Result {
        match *self {
            ExploringFault::Common(fault) => write!(f, "{fault}"),
            ExploringFault::NoPair(word) => write!(
                f,
                "{word} is no pair: a pair is the numbers of two outcomes, such as 1,2"
            ),
            ExploringFault::NoOutcome(word, count) => {
                write!(f, "no such pair {word}: outcomes found: {count}")
            }
        }
    }
}

impl<'a> From<Fault<'a>> for ExploringFault<'a> {
    ghost use Rattle.std.specs.Prelude.{◌≡◌};
    ghost use Rattle.xvsh_explores.specs.declared.fault.ExploringFault.TheVariants.{Common};

    ghost from_gives = { λ fault given. given ≡ Common fault };

    fn from(fault: Fault<'a>) -> ExploringFault<'a> {
        ExploringFault::Common(fault)
    }
}

impl<'a> From<AllocError> for ExploringFault<'a> {
    ghost use Rattle.std.specs.Prelude.{◌≡◌};
    ghost use Rattle.xvsh_read.specs.declared.fault.Fault.TheVariants.{Memory};
    ghost use Rattle.xvsh_explores.specs.declared.fault.ExploringFault.TheVariants.{Common};

    ghost from_gives = { λ _ given. given ≡ Common Memory };

    fn from(_error: AllocError) -> ExploringFault<'a> {
        ExploringFault::Common(Fault::Memory)
    }
}
