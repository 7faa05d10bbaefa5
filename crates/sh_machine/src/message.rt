//! The shell's messages.

ghost use Rattle.std.specs.Prelude.{◌≡◌, drop};
ghost use Rattle.user_calls.specs.declared.calls.Call.TheVariants.{Write};
ghost use Rattle.sh_machine.specs.Turn.{fault_text};
ghost use Rattle.sh_machine.specs.View.{says_of};
ghost use Rattle.user_progs.specs.Turn.{block};

use crate::says::Says;
use sh_tree::ParseFault;

// The message for a line that is no command.
pub fn fault<'t>(fault: ParseFault, text: &'t [u8]) -> Says<'t>
    ensures { says_of result ≡ Write 2 (block (fault_text fault text.now)) }
{
    match fault {
        ParseFault::MissingFile(_) => Says::Write(b"missing file for redirection\n"),
        ParseFault::MissingParen(_) => Says::Write(b"syntax - missing )\n"),
        ParseFault::TooManyWords(_) => Says::Write(b"too many args\n"),
        ParseFault::Unexpected(_) => Says::Write(b"syntax\n"),
        ParseFault::Leftover(at) => Says::Within(b"leftovers: ", from_place(text, at), b"\n"),
        ParseFault::Memory => Says::Write(b"no memory\n"),
    }
}

// What a text has from this place on; nothing past its end.
fn from_place<'t>(text: &'t [u8], at: usize) -> &'t [u8]
    ensures { result.now ≡ drop at text.now }
{
    if at < text.len() {
        return &text[at..];
    }
    b""
}
