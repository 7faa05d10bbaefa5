//! The names that no file can have.
ghost use Rattle.std.specs.Prelude.{◌≡◌, ◌++◌, IfOk, OnOk, map, option_copied};
ghost use Rattle.std.specs.List.{find};
ghost use Rattle.sh_tree.specs.Tree.{tree_of};
ghost use Rattle.conflict_check.specs.Occurrences.{occurrences};
ghost use Rattle.script_load.specs.Line.{line_of, lines_of};
ghost use Rattle.missing_names.specs.Missing.{is_missing, is_written, line_names, line_writes, missing_names, numbered};
ghost use Rattle.missing_names.specs.Texts.{shown};

use conflict_check::writes_it;
use mem_files::Files;
use prog_parts::file_words;
use script_load::{Line, Script};
use sh_lexer::Bytes;
use sh_tree::Cmd;
use std::alloc::{AllocError, Allocator, Global};

/// A name that no file can have (own).
#[derive(Drop)]
pub struct Missing {
    /// The line that uses it, counted from 1.
    pub line: usize,
    /// The name.
    pub name: Vec<u8>,
}

// What is looked through: a script's lines, and the files that it is given.
#[derive(Clone, Copy)]
struct Among<'s, A: Allocator, B: Allocator> {
    lines: &'s [Line<A>],
    files: &'s Files<B>,
}

fn line_writes<A: Allocator>(line: &Line<A>, name: &[u8]) -> bool
    ensures { result ≡ line_writes (line_of line.now) name.now }
{
    match line {
        Line::Tree(tree) => writes_it(tree, name),
        Line::Bad(_, _) | Line::Cd(_) => false,
    }
}

fn is_written<A: Allocator>(lines: &[Line<A>], name: &[u8]) -> bool
    ensures { result ≡ is_written (map line_of lines.now) name.now }
{
    let mut rest = lines;
    while let Some((line, after)) = rest.split_first() {
        if line_writes(line, name) {
            return true;
        }
        rest = after;
    }
    false
}

impl<A: Allocator, B: Allocator> Among<'_, A, B> {
    ghost use Rattle.std.specs.Prelude.{◌≡◌, map};
    ghost use Rattle.script_load.specs.Line.{line_of};
    ghost use Rattle.missing_names.specs.Missing.{is_missing};

    // Whether no file can have the name.
    fn is_missing(&self, name: &[u8]) -> bool
        ensures { result ≡ is_missing (map line_of self.now.lines.now) self.now.files.now name.now }
    {
        self.files.get(name).is_none() && !is_written(self.lines, name)
    }
}

// The first of these words that no file can have as its name.
fn first_word<'t, A: Allocator, B: Allocator>(
    words: &'t [Bytes<A>],
    among: &Among<'_, A, B>,
) -> Option<&'t Bytes<A>>
    ensures { option_copied result ≡ find (is_missing (map line_of among.now.lines.now) among.now.files.now) words.now }
{
    words.iter().find(|word| among.is_missing(word.as_slice()))
}

// The first name of a command that no file can have.
fn first_in<'t, A: Allocator, B: Allocator>(
    part: &'t Cmd<A>,
    among: &Among<'_, A, B>,
) -> Option<&'t [u8]>
    ensures { option_copied result ≡ find (is_missing (map line_of among.now.lines.now) among.now.files.now) (occurrences (tree_of part.now)) }
{
    match part {
        Cmd::Exec(words) => {
            first_word(file_words(words.as_slice()), among).map(|word| word.as_slice())
        }
        Cmd::Redir { name, body, .. } => {
            if among.is_missing(name.as_slice()) {
                Some(name.as_slice())
            } else {
                first_in(body, among)
            }
        }
        Cmd::Pipe(first, second) | Cmd::List(first, second) => match first_in(first, among) {
            Some(name) => Some(name),
            None => first_in(second, among),
        },
        Cmd::Back(body) => first_in(body, among),
    }
}

// The first name of a line that no file can have.
fn first_of<'t, A: Allocator, B: Allocator>(
    line: &'t Line<A>,
    among: &Among<'_, A, B>,
) -> Option<&'t [u8]>
    ensures { option_copied result ≡ find (is_missing (map line_of among.now.lines.now) among.now.files.now) (line_names (line_of line.now)) }
{
    match line {
        Line::Tree(tree) => first_in(tree, among),
        Line::Bad(_, _) | Line::Cd(_) => None,
    }
}

// Adds the name, if there is one.
fn add_missing(
    alloc: Global,
    line: usize,
    name: Option<&[u8]>,
    found: &mut Vec<Missing>,
) -> Result<(), AllocError>
    ensures { OnOk result (map shown found.new.items ≡ map shown found.old.items ++ numbered line (option_copied name.entry)) }
{
    let Some(name) = name else {
        return Ok(());
    };
    let name = Vec::from_slice(alloc, name)?;
    found.push(Missing { line, name })?;
    Ok(())
}

/// The first name of each line of the script that no file can have when the line runs: none of these files has it, and no line
/// writes it, be it a later one (own). Such a name can't be opened. A name counts where the line's text uses it as a file's.
///
/// The error is that memory was refused.
pub fn missing_names<A: Allocator, B: Allocator>(
    alloc: Global,
    script: &Script<A>,
    files: &Files<B>,
) -> Result<Vec<Missing>, AllocError>
    ensures { IfOk result (λ found. map shown found.items ≡ missing_names (lines_of script.now.lines) files.now) }
{
    let lines = script.lines.as_slice();
    let among = Among { lines, files };
    let mut found = Vec::new(alloc);
    let mut rest = lines;
    let mut number: usize = 0;
    while let Some((line, after)) = rest.split_first() {
        number += 1;
        add_missing(alloc, number, first_of(line, &among), &mut found)?;
        rest = after;
    }
    Ok(found)
}
