//! Whether commands of lines run behind `&` or can meet at a file.
ghost use Rattle.std.specs.Prelude.{◌≡◌, ◌↔◌, ℕ, List, IsTrue, false, map, ◌++◌, All, OnOk, IfOk, IfSome, IsNone};
ghost use Rattle.sh_tree.specs.Tree.{tree_of};
ghost use Rattle.mem_files.specs.Files.{FileMap};
ghost use Rattle.prog_parts.specs.Program.{is_empty};
ghost use Rattle.conflict_check.specs.Clash.{IsFirstClash};
ghost use Rattle.conflict_check.specs.Clear.{has_back, IsClear};
ghost use Rattle.script_load.specs.declared.profile.Profile.{Profile};
ghost use Rattle.script_load.specs.Line.{line_of};
ghost use Rattle.meaning_model.specs.Meaning.{line_tree, script_tree};
ghost use Rattle.plain_run.specs.Reasons.{IsReason};
ghost use Rattle.plain_run.specs.Told.{background, clash_reason};

use crate::reason::Reason;
use conflict_check::{Clash, clash, has_back};
use script_load::Line;
use sh_lexer::Bytes;
use std::alloc::{AllocError, Allocator};

// Whether a command of the line runs behind `&`.
fn line_has_back<B: Allocator>(line: &Line<B>) -> bool
    ensures { result ≡ has_back (line_tree (line_of line.now)) }
{
    match line {
        Line::Tree(tree) => has_back(tree),
        Line::Bad(..) | Line::Cd(_) => false,
    }
}

// The first clash of the line.
fn line_clash<B: Allocator>(line: &Line<B>) -> Option<Clash<'_>>
    ensures none { IsNone result ↔ IsClear (line_tree (line_of line.now)) }
    ensures some { IfSome result (λ found. IsFirstClash (line_tree (line_of line.now)) found.kind found.name.now) }
{
    match line {
        Line::Tree(tree) => clash(tree),
        Line::Bad(..) | Line::Cd(_) => None,
    }
}

// Whether no command of the line runs behind `&`, and its commands can't meet at a file.
fn is_clear<B: Allocator>(line: &Line<B>) -> bool
    ensures { IsTrue result ↔ ((has_back (line_tree (line_of line.now)) ≡ false) × IsClear (line_tree (line_of line.now))) }
{
    !line_has_back(line) && line_clash(line).is_none()
}

// Whether this is so of each line.
pub fn are_clear<B: Allocator>(lines: &[Line<B>]) -> bool
    ensures { IsTrue result ↔ ((has_back (script_tree (map line_of lines.now)) ≡ false) × IsClear (script_tree (map line_of lines.now))) }
{
    for line in lines {
        if !is_clear(line) {
            return false;
        }
    }
    true
}

// Adds that a command of the line of this number runs behind `&`, if one does.
fn add_background<A: Allocator>(
    number: usize,
    is_back: bool,
    reasons: &mut Vec<Reason<A>, A>,
) -> Result<(), AllocError>
    ensures { OnOk result (reasons.new.items ≡ reasons.old.items ++ background number is_back) }
{
    if is_back {
        reasons.push(Reason::Background { line: number })?;
    }
    Ok(())
}

// Adds the clash of the line of this number, if there is one.
fn add_clash<A: Allocator + Copy>(
    alloc: A,
    number: usize,
    found: Option<Clash<'_>>,
    reasons: &mut Vec<Reason<A>, A>,
) -> Result<(), AllocError>
    ensures { OnOk result (reasons.new.items ≡ reasons.old.items ++ clash_reason number found.entry) }
{
    if let Some(Clash { name, kind }) = found {
        let name = Bytes::copy_of(alloc, name)?;
        reasons.push(Reason::Clash {
            line: number,
            kind,
            name,
        })?;
    }
    Ok(())
}

// Why lines aren't clear, in order.
pub fn clear_reasons<A: Allocator + Copy, B: Allocator>(
    alloc: A,
    lines: &[Line<B>],
) -> Result<Vec<Reason<A>, A>, AllocError>
    ensures each { IfOk result (λ reasons. (profile : Profile) (input : List ℕ) (F : FileMap) → All (IsReason profile (map line_of lines.now) input F) reasons.items) }
    ensures none { IfOk result (λ reasons. IsTrue (is_empty reasons.items) ↔ ((has_back (script_tree (map line_of lines.now)) ≡ false) × IsClear (script_tree (map line_of lines.now)))) }
{
    let mut reasons = Vec::new(alloc);
    for (i, line) in lines.iter().enumerate() {
        add_background(i + 1, line_has_back(line), &mut reasons)?;
        add_clash(alloc, i + 1, line_clash(line), &mut reasons)?;
    }
    Ok(reasons)
}
