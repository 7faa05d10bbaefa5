//! The six programs, each on the whole of its input.

ghost use Rattle.std.specs.Prelude.{◌≡◌, ◌++◌, OnOk, IfOk, IfErr};
ghost use Rattle.mem_files.specs.Files.{files};
ghost use Rattle.meaning_model.specs.Limits.{WordsOutgrow};
ghost use Rattle.meaning_model.specs.Programs.{echo_out, grep_value, head_value, words_value};
ghost use Rattle.plain_run.specs.Gives.{Gives, IsDue, Extends, SameBeside};

use crate::fault::PlainFault;
use crate::filter::{Cat, Inputs, run_filter};
use crate::grep::Grep;
use crate::head::Head;
use crate::tee::tee;
use crate::wc::Wc;
use mem_files::Files;
use prog_parts::{Program, head_request};
use sh_lexer::Bytes;
use std::alloc::{AllocError, Allocator};

// The arguments with single spaces between them, and LF (`user/echo.c`).
fn echo<A: Allocator, B: Allocator>(
    arguments: &[Bytes<B>],
    out: &mut Vec<u8, A>,
) -> Result<(), AllocError>
    ensures out { OnOk result (out.new.items ≡ out.old.items ++ echo_out arguments.now) }
    ensures kept { Extends out.old.items out.new.items }
{
    for (i, argument) in arguments.iter().enumerate() {
        out.extend_from_slice(argument.as_slice())?;
        out.push(if i + 1 < arguments.len() { b' ' } else { b'\n' })?;
    }
    Ok(())
}

// Without a pattern it does nothing (`user/grep.c`).
fn grep<'i, A: Allocator + Copy, B: Allocator>(
    alloc: A,
    arguments: &[Bytes<B>],
    input: &'i [u8],
    store: &Files<A>,
    out: &mut Vec<u8, A>,
) -> Result<&'i [u8], AllocError>
    ensures gives { IfOk result (λ rest. Gives (grep_value arguments.now input.now (files store.now)) out.old.items out.new.items rest.now (files store.now)) }
    ensures kept { Extends out.old.items out.new.items }
{
    let Some((pattern, names)) = arguments.split_first() else {
        return Ok(input);
    };
    let program = Grep {
        pattern: pattern.as_slice(),
    };
    let inputs = Inputs {
        names,
        input,
        store,
    };
    run_filter(alloc, &program, &inputs, out)
}

// With a wrong count it does nothing.
fn head<'i, A: Allocator + Copy, B: Allocator>(
    alloc: A,
    arguments: &[Bytes<B>],
    input: &'i [u8],
    store: &Files<A>,
    out: &mut Vec<u8, A>,
) -> Result<&'i [u8], AllocError>
    ensures gives { IfOk result (λ rest. Gives (head_value arguments.now input.now (files store.now)) out.old.items out.new.items rest.now (files store.now)) }
    ensures kept { Extends out.old.items out.new.items }
{
    match head_request(arguments) {
        Some((count, names)) => {
            let inputs = Inputs {
                names,
                input,
                store,
            };
            run_filter(alloc, &Head { count }, &inputs, out)
        }
        None => Ok(input),
    }
}

/// Runs a simple command of these words on whole byte strings: adds what it writes to `out`, changes the
/// files, and returns what it leaves of its input. The first word names the program, one of `cat echo grep
/// head tee wc`; without words, and under any other name, nothing is done (own: the meaning of a command
/// as a function of whole inputs).
///
/// `TooLarge` where a file would have more than 274,432 bytes, or a 201st file would be made; `Memory`
/// where an allocation was refused. After an error `out` still begins with what it held, and may have
/// more bytes behind that; files that no word names are unchanged.
pub fn run_program<'i, A: Allocator + Copy, B: Allocator>(
    alloc: A,
    words: &[Bytes<B>],
    input: &'i [u8],
    store: &mut Files<A>,
    out: &mut Vec<u8, A>,
) -> Result<&'i [u8], PlainFault>
    ensures gives { IfOk result (λ rest. Gives (words_value words.now input.now (files store.old)) out.old.items out.new.items rest.now (files store.new)) }
    ensures large { IfErr result (IsDue (WordsOutgrow words.now input.now (files store.old))) }
    ensures kept { Extends out.old.items out.new.items }
    ensures others { SameBeside words.now (files store.old) (files store.new) }
{
    let Some((name, arguments)) = words.split_first() else {
        return Ok(input);
    };
    match Program::named(name.as_slice()) {
        Some(Program::Cat) => {
            let inputs = Inputs {
                names: arguments,
                input,
                store,
            };
            Ok(run_filter(alloc, &Cat, &inputs, out)?)
        }
        Some(Program::Echo) => {
            echo(arguments, out)?;
            Ok(input)
        }
        Some(Program::Grep) => Ok(grep(alloc, arguments, input, store, out)?),
        Some(Program::Head) => Ok(head(alloc, arguments, input, store, out)?),
        Some(Program::Tee) => tee(arguments, input, store, out),
        Some(Program::Wc) => {
            let inputs = Inputs {
                names: arguments,
                input,
                store,
            };
            Ok(run_filter(alloc, &Wc, &inputs, out)?)
        }
        None => Ok(input),
    }
}
