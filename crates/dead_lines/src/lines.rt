//! Which lines are no command, and which do nothing.
ghost use Rattle.std.specs.Prelude.{◌≡◌, ◌++◌, IfOk, OnOk, map};
ghost use Rattle.sh_tree.specs.Tree.{tree_of};
ghost use Rattle.script_load.specs.Line.{line_of};
ghost use Rattle.dead_lines.specs.Dead.{bad_lines, dead_lines, is_bad, is_dead, names_no_program, numbered};

use prog_parts::Program;
use script_load::Line;
use sh_tree::Cmd;
use std::alloc::{AllocError, Allocator, Global};

// Whether some command begins with a name that no program has.
fn names_no_program<A: Allocator>(command: &Cmd<A>) -> bool
    ensures { result ≡ names_no_program (tree_of command.now) }
{
    match command {
        Cmd::Exec(words) => match words.as_slice().first() {
            Some(name) => Program::named(name.as_slice()).is_none(),
            None => false,
        },
        Cmd::Redir { body, .. } | Cmd::Back(body) => names_no_program(body),
        Cmd::Pipe(left, right) | Cmd::List(left, right) => {
            names_no_program(left) || names_no_program(right)
        }
    }
}

// Whether a line is no command.
fn is_bad<A: Allocator>(line: &Line<A>) -> bool
    ensures { result ≡ is_bad (line_of line.now) }
{
    match line {
        Line::Tree(_) | Line::Cd(_) => false,
        Line::Bad(_, _) => true,
    }
}

// Whether a line is no command, or one of its commands begins with a name that no program has.
fn is_dead<A: Allocator>(line: &Line<A>) -> bool
    ensures { result ≡ is_dead (line_of line.now) }
{
    match line {
        Line::Tree(tree) => names_no_program(tree),
        Line::Bad(_, _) => true,
        Line::Cd(_) => false,
    }
}

// Adds the number, if it is listed.
fn add_number(number: usize, is_listed: bool, found: &mut Vec<usize>) -> Result<(), AllocError>
    ensures { OnOk result (found.new.items ≡ found.old.items ++ numbered number is_listed) }
{
    if is_listed {
        found.push(number)?;
    }
    Ok(())
}

/// The numbers, from 1, of the lines that are no command (own): the parser refuses them, and nothing of them runs. A line of blanks
/// and one of `cd` are commands. The error is that memory was refused.
pub fn bad_lines<A: Allocator>(alloc: Global, lines: &[Line<A>]) -> Result<Vec<usize>, AllocError>
    ensures { IfOk result (λ found. found.items ≡ bad_lines (map line_of lines.now)) }
{
    let mut found = Vec::new(alloc);
    let mut rest = lines;
    let mut number: usize = 0;
    while let Some((line, after)) = rest.split_first() {
        number += 1;
        add_number(number, is_bad(line), &mut found)?;
        rest = after;
    }
    Ok(found)
}

/// The numbers, from 1, of the lines that are no command, and of those of which a command begins with a name that no program has
/// (own). The error is that memory was refused.
pub fn dead_lines<A: Allocator>(alloc: Global, lines: &[Line<A>]) -> Result<Vec<usize>, AllocError>
    ensures { IfOk result (λ found. found.items ≡ dead_lines (map line_of lines.now)) }
{
    let mut found = Vec::new(alloc);
    let mut rest = lines;
    let mut number: usize = 0;
    while let Some((line, after)) = rest.split_first() {
        number += 1;
        add_number(number, is_dead(line), &mut found)?;
        rest = after;
    }
    Ok(found)
}
