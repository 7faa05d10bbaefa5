//! Which lines of a script name a file, so that no name is searched for in every line.
ghost use Rattle.std.specs.Prelude.{◌≡◌, ◌<◌, ◌+◌, ◌^◌, ◌++◌, List, ℕ, take, drop, length, not, All, OnOk, IfOk, IfSome};
ghost use Rattle.std.specs.List.{list_any};
ghost use Rattle.std.specs.Str.{bytes_eq};
ghost use Rattle.sh_tree.specs.Tree.{tree_of};
ghost use Rattle.prog_parts.specs.NameSets.{among, both};
ghost use Rattle.conflict_check.specs.Names.{names};
ghost use Rattle.script_load.specs.Line.{line_of};
ghost use Rattle.meaning_model.specs.Meaning.{line_tree};
ghost use Rattle.prog_parts.specs.Program.{is_empty};
ghost use Rattle.plain_run.specs.Spans.{all_names, span_of, reached, other_line, AreSpans};
ghost use Rattle.plain_run.specs.Told.{IsBeside, beside_reason};

use crate::reason::Reason;
use prog_parts::file_words;
use script_load::Line;
use sh_lexer::Bytes;
use sh_tree::Cmd;
use std::alloc::{AllocError, Allocator};
use std::collections::BTreeMap;

// The first and the last line, counted from 0, that have a name.
#[derive(Clone, Copy)]
pub struct Span {
    first: usize,
    last: usize,
}

// The span of each name.
#[derive(Drop)]
pub struct NameLines<A: Allocator> {
    spans: BTreeMap<Vec<u8, A>, Span, A>,
}

impl<A: Allocator + Copy> NameLines<A> {
    // Extends the span of a name to this line, which is not before any so far.
    fn reach(&mut self, alloc: A, name: &[u8], line: usize) -> Result<(), AllocError>
        ensures { OnOk result ((other : List ℕ) → span_of self.new other ≡ reached (bytes_eq other name.now) line (span_of self.old other)) }
    {
        let first = match self.spans.get(name) {
            Some(span) => span.first,
            None => line,
        };
        let span = Span { first, last: line };
        self.spans.insert(name.to_vec(alloc)?, span)?;
        Ok(())
    }

    // The same for each of these names.
    fn reach_all<B: Allocator>(
        &mut self,
        alloc: A,
        names: &[Bytes<B>],
        line: usize,
    ) -> Result<(), AllocError>
        ensures { OnOk result ((other : List ℕ) → span_of self.new other ≡ reached (among names.now other) line (span_of self.old other)) }
    {
        for name in names {
            self.reach(alloc, name.as_slice(), line)?;
        }
        Ok(())
    }

    // The same for each name of a tree.
    fn reach_tree<B: Allocator>(
        &mut self,
        alloc: A,
        tree: &Cmd<B>,
        line: usize,
    ) -> Result<(), AllocError>
        ensures { OnOk result ((other : List ℕ) → span_of self.new other ≡ reached (names (tree_of tree.now) other) line (span_of self.old other)) }
    {
        match tree {
            Cmd::Exec(words) => self.reach_all(alloc, file_words(words.as_slice()), line),
            Cmd::Redir { name, body, .. } => {
                self.reach(alloc, name.as_slice(), line)?;
                self.reach_tree(alloc, body, line)
            }
            Cmd::Pipe(left, right) | Cmd::List(left, right) => {
                self.reach_tree(alloc, left, line)?;
                self.reach_tree(alloc, right, line)
            }
            Cmd::Back(body) => self.reach_tree(alloc, body, line),
        }
    }

    // The same for each name of the line at this place.
    fn reach_line<B: Allocator>(
        &mut self,
        alloc: A,
        line: &Line<B>,
        at: usize,
    ) -> Result<(), AllocError>
        ensures { OnOk result ((other : List ℕ) → span_of self.new other ≡ reached (names (line_tree (line_of line.now)) other) at (span_of self.old other)) }
    {
        match line {
            Line::Tree(tree) => self.reach_tree(alloc, tree, at),
            Line::Bad(..) | Line::Cd(_) => Ok(()),
        }
    }

    // The spans of all names of these lines.
    pub fn of<B: Allocator>(alloc: A, lines: &[Line<B>]) -> Result<Self, AllocError>
        ensures { IfOk result (λ index. AreSpans lines.now index) }
    {
        let mut index = NameLines {
            spans: BTreeMap::new(alloc),
        };
        for (at, line) in lines.iter().enumerate() {
            index.reach_line(alloc, line, at)?;
        }
        Ok(index)
    }

    // Another line than this that has the name, if one has: the first of all that have it, or else the last.
    fn other_line(&self, name: &[u8], line: usize) -> Option<usize>
        ensures { result ≡ other_line line (span_of self.now name.now) }
    {
        match self.spans.get(name) {
            Some(span) if span.first < line => Some(span.first),
            Some(span) if line < span.last => Some(span.last),
            _ => None,
        }
    }
}

// Adds the reason that a name of this line is named at another place, if it is.
fn add_beside<A: Allocator + Copy>(
    alloc: A,
    line: usize,
    name: &[u8],
    other: Option<usize>,
    reasons: &mut Vec<Reason<A>, A>,
) -> Result<(), AllocError>
    requires { IfSome other (λ place. place + 1 < 2 ^ 64) }
    ensures { OnOk result (reasons.new.items ≡ reasons.old.items ++ beside_reason line name.now other) }
{
    if let Some(place) = other {
        let name = Bytes::copy_of(alloc, name)?;
        let again = place + 1;
        reasons.push(Reason::CutPipe { line, name, again })?;
    }
    Ok(())
}

// The reasons of those of the names, of the line at this place, that another line names.
fn of_names<A: Allocator + Copy, B: Allocator>(
    alloc: A,
    spans: &NameLines<A>,
    lines: &[Line<B>],
    at: usize,
    names: &[Bytes<A>],
) -> Result<Vec<Reason<A>, A>, AllocError>
    requires told { AreSpans lines.now spans.now }
    requires inside { at < length lines.now }
    ensures each { IfOk result (λ reasons. All (IsBeside lines.now at names.now) reasons.items) }
    ensures met { IfOk result (λ reasons. is_empty reasons.items ≡ not (list_any (both (all_names (drop (at + 1) lines.now)) (all_names (take at lines.now))) names.now)) }
{
    let mut reasons = Vec::new(alloc);
    for name in names {
        let other = spans.other_line(name.as_slice(), at);
        add_beside(alloc, at + 1, name.as_slice(), other, &mut reasons)?;
    }
    Ok(reasons)
}

// The same. The spans are computed where they are needed for the first time.
pub fn beside_line<A: Allocator + Copy, B: Allocator>(
    alloc: A,
    spans: &mut Option<NameLines<A>>,
    lines: &[Line<B>],
    at: usize,
    names: &[Bytes<A>],
) -> Result<Vec<Reason<A>, A>, AllocError>
    requires told { IfSome spans.old (AreSpans lines.now) }
    requires inside { at < length lines.now }
    ensures told { OnOk result (IfSome spans.new (AreSpans lines.now)) }
    ensures each { IfOk result (λ reasons. All (IsBeside lines.now at names.now) reasons.items) }
    ensures met { IfOk result (λ reasons. is_empty reasons.items ≡ not (list_any (both (all_names (drop (at + 1) lines.now)) (all_names (take at lines.now))) names.now)) }
{
    if names.is_empty() {
        return Ok(Vec::new(alloc));
    }
    let known = match spans.take() {
        Some(known) => known,
        None => NameLines::of(alloc, lines)?,
    };
    let reasons = of_names(alloc, &known, lines, at, names)?;
    *spans = Some(known);
    Ok(reasons)
}
