//! What is reported of a script, and why nothing is.
ghost use Rattle.std.specs.Prelude.{◌≡◌};
ghost use Rattle.embed.specs.Asks.{of_fault};

use crate::fault::{EmbedFault, StartFault};
use xvsh_read::Fault;

/// What is reported of a script before any run of it.
#[derive(Drop)]
pub struct AskAnswer {
    /// An object of JSON, and LF.
    pub json: Vec<u8>,
    /// Whether there is nothing to report.
    pub is_fine: bool,
}

/// Why nothing is reported of a script that is standard input.
pub(crate) fn of_fault(fault: Fault<'_>) -> EmbedFault
    ensures { result ≡ of_fault fault.entry }
{
    match fault {
        Fault::TooLong(_) => EmbedFault::Start(StartFault::ScriptTooLong),
        Fault::LineTooLong(line) => EmbedFault::Start(StartFault::LineTooLong(line)),
        Fault::ByteZero(line) => EmbedFault::Start(StartFault::ByteZero(line)),
        Fault::TooLarge => EmbedFault::TooLarge,
        Fault::Unreadable(_)
        | Fault::BadName(_)
        | Fault::TakenName(_)
        | Fault::TooManyFiles
        | Fault::Memory => EmbedFault::Memory,
    }
}
