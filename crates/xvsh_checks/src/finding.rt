//! What `check` finds in a script before any run.
ghost use Rattle.std.specs.Prelude.{◌≡◌, ◌++◌, ◌↔◌, List, OnOk, IfOk, IfErr, IsTrue, false};
ghost use Rattle.sh_tree.specs.Tree.{tree_of};
ghost use Rattle.conflict_check.specs.Clear.{IsClear, has_back as back};
ghost use Rattle.script_load.specs.Line.{line_of, lines_of};
ghost use Rattle.xvsh_checks.specs.Check.{IsHarmless, AreHarmless, RanCheck, IsCheckFault};
ghost use Rattle.xvsh_checks.specs.Findings.{AreFindings, AreOfLine, IsClashFound, back_found};

use crate::found::Finding;
use crate::request::CheckRequest;
use conflict_check::{clash, has_back};
use script_load::{Line, Profile, Script};
use sh_lexer::Bytes;
use sh_tree::Cmd;
use std::alloc::{AllocError, Global};
use xvsh_read::{Fault, Host, read_script};

// Adds that the line holds a `&`, where it is so.
fn add_back(line: usize, is_back: bool, found: &mut Vec<Finding>) -> Result<(), AllocError>
    ensures { OnOk result (found.new.items ≡ found.old.items ++ back_found line is_back) }
{
    if is_back {
        found.push(Finding::Background { line })?;
    }
    Ok(())
}

// Adds what is found in a tree, and returns whether it is harmless.
fn find_in_tree(
    alloc: Global,
    line: usize,
    tree: &Cmd<Global>,
    found: &mut Vec<Finding>,
) -> Result<bool, AllocError>
    ensures added { OnOk result ((clash : List Finding) × IsClashFound line (tree_of tree.now) clash
        × (found.new.items ≡ (found.old.items ++ back_found line (back (tree_of tree.now))) ++ clash)) }
    ensures harmless { IfOk result (λ is. IsTrue is ↔ ((back (tree_of tree.now) ≡ false) × IsClear (tree_of tree.now))) }
{
    let is_back = has_back(tree);
    add_back(line, is_back, found)?;
    match clash(tree) {
        Some(first) => {
            let name = Bytes::copy_of(alloc, first.name)?;
            let kind = first.kind;
            found.push(Finding::Clash { line, kind, name })?;
            Ok(false)
        }
        None => Ok(!is_back),
    }
}

// Adds what is found in a line, and returns whether it is harmless.
fn find_in_line(
    alloc: Global,
    number: usize,
    line: &Line<Global>,
    is_strict: bool,
    found: &mut Vec<Finding>,
) -> Result<bool, AllocError>
    ensures added { OnOk result ((first : List Finding) × AreOfLine number (line_of line.now) first × (found.new.items ≡ found.old.items ++ first)) }
    ensures harmless { IfOk result (λ is. IsTrue is ↔ IsHarmless is_strict (line_of line.now)) }
{
    match line {
        Line::Tree(tree) => find_in_tree(alloc, number, tree, found),
        Line::Bad(fault, _) => {
            let finding = Finding::Fault {
                line: number,
                fault: *fault,
            };
            found.push(finding)?;
            Ok(!is_strict)
        }
        Line::Cd(_) => Ok(true),
    }
}

/// What `check` finds in a script.
#[derive(Drop)]
pub struct Findings {
    /// What is found in its lines, in order.
    pub list: Vec<Finding>,
    /// No line holds a `&` or a clash, and strictly each is a command; and where its room is asked for, the script has room.
    pub is_harmless: bool,
}

/// What `check` finds in each line of a script, in order: the fault of a line that is no command; that it holds a `&`; and its
/// first clash (own). Lines are counted from 1. Nothing is run. `AllocError` where memory is refused.
pub fn find(alloc: Global, script: &Script<Global>, is_strict: bool) -> Result<Findings, AllocError>
    ensures found { IfOk result (λ found. AreFindings 1 (lines_of script.now.lines) found.list.items) }
    ensures harmless { IfOk result (λ found. IsTrue found.is_harmless ↔ AreHarmless is_strict (lines_of script.now.lines)) }
{
    let mut list = Vec::new(alloc);
    let mut is_harmless = true;
    for (i, line) in script.lines.as_slice().iter().enumerate() {
        let is_fine = find_in_line(alloc, i + 1, line, is_strict, &mut list)?;
        is_harmless = is_harmless && is_fine;
    }
    Ok(Findings { list, is_harmless })
}

/// `check`: reads the script, and returns what is found in its lines, and whether these are harmless. Nothing is written.
pub fn run_find<'a, H: Host>(
    alloc: Global,
    request: &CheckRequest<'a>,
    host: &mut H,
) -> Result<Findings, Fault<'a>>
    ensures ran { IfOk result (λ found. RanCheck (H.input host.old) (H.file host.old) request.now.script.now request.now.is_strict found.is_harmless found.list.items) }
    ensures fault { IfErr result (IsCheckFault (H.input host.old) (H.file host.old) request.now.script.now) }
{
    let loaded = read_script(alloc, host, Profile::Xv6, request.script)?;
    let found = find(alloc, &loaded, request.is_strict)?;
    Ok(found)
}
