//! `user/echo.c`: the arguments with single spaces between them, and LF. Its replies are ignored.

ghost use Rattle.std.specs.Prelude.{◌≡◌};
ghost use Rattle.user_progs.specs.Turn.{echo_next, echo_end};
ghost use Rattle.user_progs.specs.View.{turn_of};

use crate::says::Says;
use crate::state::{Plain, Turn};
use sh_lexer::Bytes;
use std::alloc::Allocator;

// Writes the first of these arguments.
pub fn next<'t, A: Allocator>(arguments: &'t [Bytes<A>]) -> Turn<'t, 't, A>
    ensures { turn_of result ≡ echo_next arguments.now }
{
    let Some((argument, later)) = arguments.split_first() else {
        return Turn::exits();
    };
    Turn::stays(Says::Write(1, argument.as_slice()), Plain::EchoWord(later))
}

// Writes what follows an argument, before these.
pub fn end<'t, A: Allocator>(later: &'t [Bytes<A>]) -> Turn<'t, 't, A>
    ensures { turn_of result ≡ echo_end later.now }
{
    if later.is_empty() {
        return Turn::stays(Says::Write(1, b"\n"), Plain::Told);
    }
    Turn::stays(Says::Write(1, b" "), Plain::EchoSpace(later))
}
