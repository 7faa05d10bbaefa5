//! Why lines that follow each other aren't settled.
ghost use Rattle.std.specs.Prelude.{◌≡◌, ◌++◌, [], None, IfOk};
ghost use Rattle.sh_tree.specs.Tree.{tree_of};
ghost use Rattle.conflict_check.specs.Names.{uses_input};
ghost use Rattle.script_load.specs.Line.{line_of};
ghost use Rattle.meaning_model.specs.Meaning.{line_tree};
ghost use Rattle.plain_run.specs.Told.{first_loose, line_reasons, reused, used, within};

use crate::reason::Reason;
use crate::verdict::{Verdict, joined};
use conflict_check::uses_input;
use script_load::Line;
use sh_lexer::Bytes;
use std::alloc::{AllocError, Allocator};

// What is known of the lines so far.
#[derive(Drop)]
pub struct Told<A: Allocator> {
    // Why they aren't settled, but for `&` and clashes.
    pub reasons: Vec<Reason<A>, A>,
    // The first of them, counted from 1, after which what is left unread of standard input may depend on the order.
    pub loose: Option<usize>,
    // Names of files whose bytes may depend on it.
    pub soft: Vec<Bytes<A>, A>,
}

fn line_uses_input<B: Allocator>(line: &Line<B>) -> bool
    ensures { result ≡ uses_input (line_tree (line_of line.now)) }
{
    match line {
        Line::Tree(tree) => uses_input(tree),
        Line::Bad(..) | Line::Cd(_) => false,
    }
}

// The reasons of names that are named again within a line.
fn within<A: Allocator + Copy>(
    alloc: A,
    line: usize,
    names: Vec<Bytes<A>, A>,
) -> Result<Vec<Reason<A>, A>, AllocError>
    ensures { IfOk result (λ reasons. reasons.items ≡ within line names.items) }
{
    let mut reasons = Vec::new(alloc);
    for name in names {
        let again = line;
        reasons.push(Reason::CutPipe { line, name, again })?;
    }
    Ok(reasons)
}

// The reasons of inputs that are used again: within a line, or by it after the first loose line.
fn add_inputs<A: Allocator>(
    mut reasons: Vec<Reason<A>, A>,
    line: usize,
    reuses: bool,
    loose: Option<usize>,
    uses: bool,
) -> Result<Vec<Reason<A>, A>, AllocError>
    ensures { IfOk result (λ all. all.items ≡ (reasons.items ++ reused line reuses) ++ used loose uses line) }
{
    if reuses {
        reasons.push(Reason::LooseInput { line, user: line })?;
    }
    if let Some(first) = loose {
        if uses {
            reasons.push(Reason::LooseInput {
                line: first,
                user: line,
            })?;
        }
    }
    Ok(reasons)
}

// The first loose line, once this one was looked at.
fn first_loose(loose: Option<usize>, is_loose: bool, line: usize) -> Option<usize>
    ensures { result ≡ first_loose loose is_loose line }
{
    match loose {
        Some(first) => Some(first),
        None if is_loose => Some(line),
        None => None,
    }
}

impl<A: Allocator + Copy> Told<A> {
    // Of no line.
    pub fn nothing(alloc: A) -> Self
        ensures reasons { result.reasons.items ≡ [] }
        ensures loose { result.loose ≡ None }
        ensures soft { result.soft.items ≡ [] }
    {
        Told {
            reasons: Vec::new(alloc),
            loose: None,
            soft: Vec::new(alloc),
        }
    }

    // One more line, with its number, its own verdict, and the reasons of its soft names that other lines name.
    pub fn with_line<B: Allocator>(
        self,
        line: &Line<B>,
        number: usize,
        own: Verdict<A>,
        beside: Vec<Reason<A>, A>,
    ) -> Result<Self, AllocError>
        ensures reasons { IfOk result (λ all. all.reasons.items ≡ self.reasons.items ++ line_reasons number own.again.items beside.items own.reuses self.loose (uses_input (line_tree (line_of line.now)))) }
        ensures loose { IfOk result (λ all. all.loose ≡ first_loose self.loose own.is_loose number) }
        ensures soft { IfOk result (λ all. all.soft.items ≡ self.soft.items ++ own.soft.items) }
    {
        let mut beside = beside;
        let mut of_line = within(*self.reasons.allocator(), number, own.again)?;
        of_line.append(&mut beside)?;
        let uses = line_uses_input(line);
        let mut of_line = add_inputs(of_line, number, own.reuses, self.loose, uses)?;
        let mut reasons = self.reasons;
        reasons.append(&mut of_line)?;
        Ok(Told {
            reasons,
            loose: first_loose(self.loose, own.is_loose, number),
            soft: joined(self.soft, own.soft)?,
        })
    }
}
