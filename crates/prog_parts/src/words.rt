//! Simple commands: the words that name files, and whether standard input is read.
ghost use Rattle.std.specs.Prelude.{◌≡◌};
ghost use Rattle.prog_parts.specs.NameSets.{among};
ghost use Rattle.prog_parts.specs.Program.{file_words, program_uses_input};
ghost use Rattle.prog_parts.specs.Words.{words_files, words_files_read, words_files_written, words_use_input};

use crate::head::head_request;
use crate::program::Program;
use sh_lexer::Bytes;
use std::alloc::Allocator;

// The arguments of a program that name files.
fn file_arguments<A: Allocator>(program: Program, arguments: &[Bytes<A>]) -> &[Bytes<A>]
    ensures { result.now ≡ file_words program arguments.now }
{
    match program {
        Program::Cat | Program::Tee | Program::Wc => arguments,
        Program::Echo => &[],
        Program::Grep => match arguments.split_first() {
            Some((_, files)) => files,
            None => &[],
        },
        Program::Head => match head_request(arguments) {
            Some((_, files)) => files,
            None => &[],
        },
    }
}

fn program_uses_input<A: Allocator>(program: Program, arguments: &[Bytes<A>]) -> bool
    ensures { result ≡ program_uses_input program arguments.now }
{
    match program {
        Program::Cat | Program::Wc => arguments.is_empty(),
        Program::Echo => false,
        Program::Grep => arguments.len() == 1,
        Program::Head => match head_request(arguments) {
            Some((_, files)) => files.is_empty(),
            None => false,
        },
        Program::Tee => true,
    }
}

/// The words of a simple command that name files, by its program and the text: all arguments of `cat`,
/// `tee` and `wc`, those of `grep` behind its pattern, and those of `head` behind its count (own).
pub fn file_words<A: Allocator>(words: &[Bytes<A>]) -> &[Bytes<A>]
    ensures { result.now ≡ words_files words.now }
{
    let Some((name, arguments)) = words.split_first() else {
        return &[];
    };
    match Program::named(name.as_slice()) {
        Some(program) => file_arguments(program, arguments),
        None => &[],
    }
}

/// The words of a simple command that name the files that it reads: those that name files, but none of
/// `tee` (own).
pub fn words_read<A: Allocator>(words: &[Bytes<A>]) -> &[Bytes<A>]
    ensures { result.now ≡ words_files_read words.now }
{
    let Some((name, arguments)) = words.split_first() else {
        return &[];
    };
    match Program::named(name.as_slice()) {
        Some(Program::Tee) | None => &[],
        Some(program) => file_arguments(program, arguments),
    }
}

/// The words of a simple command that name the files that it writes: all arguments of `tee` (own).
pub fn words_written<A: Allocator>(words: &[Bytes<A>]) -> &[Bytes<A>]
    ensures { result.now ≡ words_files_written words.now }
{
    let Some((name, arguments)) = words.split_first() else {
        return &[];
    };
    match Program::named(name.as_slice()) {
        Some(Program::Tee) => arguments,
        _ => &[],
    }
}

/// Whether a simple command reads standard input: `tee`, `cat` and `wc` without arguments, `grep` with
/// its pattern alone, `head` without a file and without a wrong option (own; `user/cat.c`, `user/grep.c`
/// and `user/wc.c` read it so).
pub fn words_use_input<A: Allocator>(words: &[Bytes<A>]) -> bool
    ensures { result ≡ words_use_input words.now }
{
    let Some((name, arguments)) = words.split_first() else {
        return false;
    };
    match Program::named(name.as_slice()) {
        Some(program) => program_uses_input(program, arguments),
        None => false,
    }
}

/// Whether this name is one of these words (own).
pub fn is_among<A: Allocator>(words: &[Bytes<A>], name: &[u8]) -> bool
    ensures { result ≡ among words.now name.now }
{
    words.iter().any(|word| name == word.as_slice())
}
