//! Runs of scripts by their meaning: each pipe's left side to its end before its right side.

ghost use Rattle.std.specs.Prelude.{IsTrue, ◌≡◌, ◌≢◌, ◌↔◌, ◌||◌, not, map, ℕ, List, [], IfOk, IfErr, false, true, All, Contains};
ghost use Rattle.std.specs.List.Sorted.{IsStrictlySortedBy};
ghost use Rattle.sh_tree.specs.declared.tree.Mode.TheVariants.{Input};
ghost use Rattle.sh_tree.specs.Tree.{exec, list, pipe, redir, tree_of};
ghost use Rattle.mem_files.specs.Files.{files};
ghost use Rattle.mem_files.specs.Name.{name_cmp};
ghost use Rattle.prog_parts.specs.NameSets.{no_names};
ghost use Rattle.prog_parts.specs.Program.{is_empty};
ghost use Rattle.meaning_model.specs.Settled.{IsSettled, IsSettledScript};
ghost use Rattle.meaning_model.specs.Limits.{Outgrows};
ghost use Rattle.script_load.specs.Line.{line_of, lines_of};
ghost use Rattle.meaning_model.specs.Meaning.{meaning, line_tree, script_tree, script_meaning};
ghost use Rattle.plain_run.specs.Gives.{IsDue};
ghost use Rattle.plain_run.specs.CatAlone.{cat_alone};
ghost use Rattle.plain_run.specs.Means.{Means, MeanLines};
ghost use Rattle.plain_run.specs.Reasons.{IsReason};

use crate::fault::PlainFault;
use crate::line_verdicts::{are_clear, clear_reasons};
use crate::name_lines::beside_line;
use crate::ordered::in_order;
use crate::outcome::{Plain, Reasoned};
use crate::output::{close_output, held_bytes, open_output};
use crate::programs::run_program;
use crate::reason::Reason;
use crate::store::find;
use crate::told::Told;
use crate::verdict::{Side, Verdict};
use mem_files::Files;
use script_load::{Line, Profile, Script};
use sh_lexer::Bytes;
use sh_tree::{Cmd, Mode, Words};
use std::alloc::Allocator;
use std::mem;

// What a run leaves of its input, and what of it may depend on the order in which processes run.
#[derive(Drop)]
struct Ran<'i, A: Allocator> {
    rest: &'i [u8],
    verdict: Verdict<A>,
}

impl<'i, A: Allocator + Copy> Ran<'i, A> {
    // Nothing was done.
    fn nothing(alloc: A, input: &'i [u8]) -> Self
        ensures rest { result.rest.now ≡ input.now }
        ensures again { result.verdict.again.items ≡ [] }
        ensures reuses { result.verdict.reuses ≡ false }
        ensures loose { result.verdict.is_loose ≡ false }
        ensures soft { result.verdict.soft.items ≡ [] }
    {
        Ran {
            rest: input,
            verdict: Verdict::firm(alloc),
        }
    }

    // Whether some of its input is left, or may be.
    fn is_cut(&self) -> bool
        ensures { result ≡ (not (is_empty self.now.rest.now) || self.now.verdict.is_loose) }
    {
        !self.rest.is_empty() || self.verdict.is_loose
    }
}

// Whether these words are `cat` alone.
fn are_cat_alone<B: Allocator>(words: &[Bytes<B>]) -> bool
    ensures { IsTrue result ↔ (exec words.now ≡ cat_alone) }
{
    match words.split_first() {
        Some((name, arguments)) => arguments.is_empty() && name.as_slice() == b"cat".as_slice(),
        None => false,
    }
}

// Whether a command is `cat` without files, which passes all of its input on (`user/cat.c`).
fn is_bare_cat<B: Allocator>(tree: &Cmd<B>) -> bool
    ensures { IsTrue result ↔ (tree_of tree.now ≡ cat_alone) }
{
    match tree {
        Cmd::Exec(words) => are_cat_alone(words.as_slice()),
        _ => false,
    }
}

// What the lines so far leave of the input, and why they aren't settled.
#[derive(Drop)]
struct RanLines<'i, A: Allocator> {
    rest: &'i [u8],
    told: Told<A>,
}

// Runs commands by this profile: it changes the files as they do, and adds what they write to the output.
// After a fault it is of no more use.
#[derive(Drop)]
struct Runner<A: Allocator + Copy> {
    alloc: A,
    profile: Profile,
    store: Files<A>,
    out: Vec<u8, A>,
}

impl<A: Allocator + Copy> Runner<A> {
    // Adds a command's output, changes the files as it does, and returns what it leaves of the input, and
    // what of this may depend on the order in which processes run.
    #[cycle(tree)]
    fn run_tree<'i, B: Allocator>(
        &mut self,
        tree: &Cmd<B>,
        input: &'i [u8],
    ) -> Result<Ran<'i, A>, PlainFault>
        ensures { Means self.old self.new (tree_of tree.now) input.now result }
    {
        match tree {
            Cmd::Exec(words) => Ok(Ran {
                rest: run_program(
                    self.alloc,
                    words.as_slice(),
                    input,
                    &mut self.store,
                    &mut self.out,
                )?,
                verdict: Verdict::firm(self.alloc),
            }),
            Cmd::Redir {
                mode: Mode::Input,
                name,
                body,
            } => self.run_from_file(name.as_slice(), body, input),
            Cmd::Redir { mode, name, body } => {
                self.run_into_file(*mode, name.as_slice(), body, input)
            }
            Cmd::Pipe(left, right) => self.run_pipe(left, right, input),
            Cmd::List(left, right) => self.run_list(left, right, input),
            Cmd::Back(body) => self.run_tree(body, input),
        }
    }

    // A command under `<`: on the bytes of the file; without a file nothing is done.
    #[cycle(tree)]
    fn run_from_file<'i, B: Allocator>(
        &mut self,
        name: &[u8],
        body: &Cmd<B>,
        input: &'i [u8],
    ) -> Result<Ran<'i, A>, PlainFault>
        ensures { Means self.old self.new (redir Input name.now (tree_of body.now)) input.now result }
    {
        let Some(bytes) = find(&self.store, name) else {
            return Ok(Ran::nothing(self.alloc, input));
        };
        let bytes = Bytes::copy_of(self.alloc, bytes)?;
        let ran = self.run_tree(body, bytes.as_slice())?;
        Ok(Ran {
            rest: input,
            verdict: ran
                .verdict
                .into_file(self.alloc, name)?
                .with_looseness(false),
        })
    }

    // A command under `>` or `>>`: its output goes to the file; where that can't be opened nothing is done.
    #[cycle(tree)]
    fn run_into_file<'i, B: Allocator>(
        &mut self,
        mode: Mode,
        name: &[u8],
        body: &Cmd<B>,
        input: &'i [u8],
    ) -> Result<Ran<'i, A>, PlainFault>
        requires { mode ≢ Input }
        ensures { Means self.old self.new (redir mode name.now (tree_of body.now)) input.now result }
    {
        let held = held_bytes(self.alloc, mode, &self.store, name)?;
        if !open_output(mode, &mut self.store, name)? {
            return Ok(Ran::nothing(self.alloc, input));
        }
        let out = mem::replace(&mut self.out, Vec::new(self.alloc));
        let ran = self.run_tree(body, input)?;
        let written = mem::replace(&mut self.out, out);
        close_output(self.profile, &mut self.store, name, held, written)?;
        Ok(Ran {
            rest: ran.rest,
            verdict: ran.verdict.into_file(self.alloc, name)?,
        })
    }

    // A pipe. A side that is `cat` alone passes all on: then the other side does all that the pipe does, and no byte is copied
    // in between.
    #[cycle(tree)]
    fn run_pipe<'i, B: Allocator>(
        &mut self,
        left: &Cmd<B>,
        right: &Cmd<B>,
        input: &'i [u8],
    ) -> Result<Ran<'i, A>, PlainFault>
        ensures { Means self.old self.new (pipe (tree_of left.now) (tree_of right.now)) input.now result }
    {
        if is_bare_cat(right) {
            return self.run_tree(left, input);
        }
        if is_bare_cat(left) {
            return self.run_after_cat(right, input);
        }
        self.run_sides(left, right, input)
    }

    // The right side of a pipe whose left side is `cat` alone, on the pipe's own input, of which nothing is left.
    #[cycle(tree)]
    fn run_after_cat<'i, B: Allocator>(
        &mut self,
        right: &Cmd<B>,
        input: &'i [u8],
    ) -> Result<Ran<'i, A>, PlainFault>
        ensures { Means self.old self.new (pipe cat_alone (tree_of right.now)) input.now result }
    {
        let ran = self.run_tree(right, input)?;
        let is_cut = ran.is_cut();
        Ok(Ran {
            rest: &[],
            verdict: ran.verdict.with_looseness(is_cut),
        })
    }

    // The left side to its end, and then the right side on its output.
    #[cycle(tree)]
    fn run_sides<'i, B: Allocator>(
        &mut self,
        left: &Cmd<B>,
        right: &Cmd<B>,
        input: &'i [u8],
    ) -> Result<Ran<'i, A>, PlainFault>
        ensures { Means self.old self.new (pipe (tree_of left.now) (tree_of right.now)) input.now result }
    {
        let out = mem::replace(&mut self.out, Vec::new(self.alloc));
        let first = self.run_tree(left, input)?;
        let middle = mem::replace(&mut self.out, out);
        let second = self.run_tree(right, middle.as_slice())?;
        let is_cut = second.is_cut();
        let verdict = Verdict::of_pipe(
            self.alloc,
            is_cut,
            Side {
                tree: left,
                verdict: first.verdict,
            },
            Side {
                tree: right,
                verdict: second.verdict,
            },
        )?;
        Ok(Ran {
            rest: first.rest,
            verdict,
        })
    }

    // A list: the left side, and then the right side on what it left of the input.
    #[cycle(tree)]
    fn run_list<'i, B: Allocator>(
        &mut self,
        left: &Cmd<B>,
        right: &Cmd<B>,
        input: &'i [u8],
    ) -> Result<Ran<'i, A>, PlainFault>
        ensures { Means self.old self.new (list (tree_of left.now) (tree_of right.now)) input.now result }
    {
        let first = self.run_tree(left, input)?;
        let second = self.run_tree(right, first.rest)?;
        let verdict = Verdict::of_list(
            self.alloc,
            Side {
                tree: left,
                verdict: first.verdict,
            },
            Side {
                tree: right,
                verdict: second.verdict,
            },
        )?;
        Ok(Ran {
            rest: second.rest,
            verdict,
        })
    }

    // The same of a line.
    fn run_line<'i, B: Allocator>(
        &mut self,
        line: &Line<B>,
        input: &'i [u8],
    ) -> Result<Ran<'i, A>, PlainFault>
        ensures { Means self.old self.new (line_tree (line_of line.now)) input.now result }
    {
        match line {
            Line::Tree(tree) => self.run_tree(tree, input),
            Line::Bad(..) | Line::Cd(_) => Ok(Ran::nothing(self.alloc, input)),
        }
    }

    // The same of lines that follow each other, and why they aren't settled.
    fn run_lines<'i, B: Allocator>(
        &mut self,
        lines: &[Line<B>],
        input: &'i [u8],
    ) -> Result<RanLines<'i, A>, PlainFault>
        ensures { MeanLines self.old self.new (map line_of lines.now) input.now result }
    {
        let mut rest = input;
        let mut told = Told::nothing(self.alloc);
        let mut spans = None;
        for (i, line) in lines.iter().enumerate() {
            let ran = self.run_line(line, rest)?;
            rest = ran.rest;
            let beside = beside_line(
                self.alloc,
                &mut spans,
                lines,
                i,
                ran.verdict.soft.as_slice(),
            )?;
            told = told.with_line(line, i + 1, ran.verdict, beside)?;
        }
        Ok(RanLines { rest, told })
    }
}

// The outcome of a script, and why it isn't settled, but for `&` and clashes.
#[derive(Drop)]
struct Outcome<A: Allocator> {
    out: Bytes<A>,
    files: Files<A>,
    rest: Bytes<A>,
    soft: Words<A>,
    reasons: Vec<Reason<A>, A>,
}

// Whether there is no reason.
fn is_none<A: Allocator>(reasons: &[Reason<A>]) -> bool
    ensures { result ≡ is_empty reasons.now }
{
    reasons.is_empty()
}

// Runs a script.
fn run_script<A: Allocator + Copy, B: Allocator, C: Allocator>(
    alloc: A,
    script: &Script<B>,
    stdin: &[u8],
    given: &Files<C>,
) -> Result<Outcome<A>, PlainFault>
    ensures out { IfOk result (λ p. p.out ≡ (script_meaning script.now.profile (lines_of script.now.lines) stdin.now (files given.now)).out) }
    ensures rest { IfOk result (λ p. p.rest ≡ (script_meaning script.now.profile (lines_of script.now.lines) stdin.now (files given.now)).rest) }
    ensures files { IfOk result (λ p. (name : List ℕ) → files p.files name ≡ (script_meaning script.now.profile (lines_of script.now.lines) stdin.now (files given.now)).files name) }
    ensures settled { IfOk result (λ p. IsTrue (is_empty p.reasons.items) ↔ IsSettled script.now.profile (script_tree (lines_of script.now.lines)) no_names stdin.now (files given.now)) }
    ensures each { IfOk result (λ p. All (IsReason script.now.profile (lines_of script.now.lines) stdin.now (files given.now)) p.reasons.items) }
    ensures soft { IfOk result (λ p. (name : List ℕ) → Contains p.soft name ↔ ((script_meaning script.now.profile (lines_of script.now.lines) stdin.now (files given.now)).soft name ≡ true)) }
    ensures soft_order { IfOk result (λ p. IsStrictlySortedBy name_cmp p.soft) }
    ensures large { IfErr result (IsDue (Outgrows script.now.profile (script_tree (lines_of script.now.lines)) stdin.now (files given.now))) }
{
    let store = match given.copy(alloc) {
        Ok(store) => store,
        Err(_) => return Err(PlainFault::Memory),
    };
    let mut runner = Runner {
        alloc,
        profile: script.profile,
        store,
        out: Vec::new(alloc),
    };
    let ran = runner.run_lines(script.lines.as_slice(), stdin)?;
    Ok(Outcome {
        out: Bytes::from_vec(runner.out),
        files: runner.store,
        rest: Bytes::copy_of(alloc, ran.rest)?,
        soft: Words::from_vec(in_order(alloc, ran.told.soft.as_slice())?),
        reasons: ran.told.reasons,
    })
}

/// Runs a script on this standard input and these files by its recursive meaning under its profile (own): each
/// command on whole byte strings, a pipe's left side to its end before its right side, line after line. A
/// command under `&` is run to its end in its place. The input and the files stay as they were.
///
/// The programs are the six, `cat echo grep head tee wc`; every other name does nothing. `TooLarge` as soon
/// as a file would have more than 274,432 bytes, or a 201st file would be made; `Memory` where an allocation
/// was refused.
///
/// The soft names are those that left sides of cut pipes write, also of a script that isn't settled.
/// Where no pipe is cut, no name is copied.
///
/// No command is evaluated twice for the verdict, and each line is searched once for `&` and clashes. At the
/// first line that has soft names the names of all lines are put in order, once, so that no line is
/// searched for the names of another.
pub fn plain<A: Allocator + Copy, B: Allocator, C: Allocator>(
    alloc: A,
    script: &Script<B>,
    stdin: &[u8],
    given: &Files<C>,
) -> Result<Plain<A>, PlainFault>
    ensures out { IfOk result (λ p. p.out ≡ (script_meaning script.now.profile (lines_of script.now.lines) stdin.now (files given.now)).out) }
    ensures rest { IfOk result (λ p. p.rest ≡ (script_meaning script.now.profile (lines_of script.now.lines) stdin.now (files given.now)).rest) }
    ensures files { IfOk result (λ p. (name : List ℕ) → files p.files name ≡ (script_meaning script.now.profile (lines_of script.now.lines) stdin.now (files given.now)).files name) }
    ensures settled { IfOk result (λ p. IsTrue p.settled ↔ IsSettledScript script.now.profile (lines_of script.now.lines) stdin.now (files given.now)) }
    ensures soft { IfOk result (λ p. (name : List ℕ) → Contains p.soft name ↔ ((script_meaning script.now.profile (lines_of script.now.lines) stdin.now (files given.now)).soft name ≡ true)) }
    ensures soft_order { IfOk result (λ p. IsStrictlySortedBy name_cmp p.soft) }
    ensures large { IfErr result (IsDue (Outgrows script.now.profile (script_tree (lines_of script.now.lines)) stdin.now (files given.now))) }
{
    let outcome = run_script(alloc, script, stdin, given)?;
    let settled = is_none(outcome.reasons.as_slice()) && are_clear(script.lines.as_slice());
    Ok(Plain {
        out: outcome.out,
        files: outcome.files,
        rest: outcome.rest,
        settled,
        soft: outcome.soft,
    })
}

/// Runs a script as `plain` does, and returns beside its outcome why it isn't settled (own): first, line after line, the
/// commands behind `&` and the first clash of each line; then, line after line, the names that cut pipes' left sides write and
/// that are named again, each with one line that names it, and the inputs that are used after a command that is loose. The
/// first loose line is reported for each later line that uses the input. There is no reason where the script is settled.
///
/// The faults are those of `plain`. It takes the time of `plain`, and that of a search of each line for `&` and clashes.
pub fn plain_with_reasons<A: Allocator + Copy, B: Allocator, C: Allocator>(
    alloc: A,
    script: &Script<B>,
    stdin: &[u8],
    given: &Files<C>,
) -> Result<Reasoned<A>, PlainFault>
    ensures out { IfOk result (λ r. r.plain.out ≡ (script_meaning script.now.profile (lines_of script.now.lines) stdin.now (files given.now)).out) }
    ensures rest { IfOk result (λ r. r.plain.rest ≡ (script_meaning script.now.profile (lines_of script.now.lines) stdin.now (files given.now)).rest) }
    ensures files { IfOk result (λ r. (name : List ℕ) → files r.plain.files name ≡ (script_meaning script.now.profile (lines_of script.now.lines) stdin.now (files given.now)).files name) }
    ensures settled { IfOk result (λ r. IsTrue r.plain.settled ↔ IsSettledScript script.now.profile (lines_of script.now.lines) stdin.now (files given.now)) }
    ensures none { IfOk result (λ r. (r.reasons.items ≡ []) ↔ IsSettledScript script.now.profile (lines_of script.now.lines) stdin.now (files given.now)) }
    ensures each { IfOk result (λ r. All (IsReason script.now.profile (lines_of script.now.lines) stdin.now (files given.now)) r.reasons.items) }
    ensures soft { IfOk result (λ r. (name : List ℕ) → Contains r.plain.soft name ↔ ((script_meaning script.now.profile (lines_of script.now.lines) stdin.now (files given.now)).soft name ≡ true)) }
    ensures soft_order { IfOk result (λ r. IsStrictlySortedBy name_cmp r.plain.soft) }
    ensures large { IfErr result (IsDue (Outgrows script.now.profile (script_tree (lines_of script.now.lines)) stdin.now (files given.now))) }
{
    let mut outcome = run_script(alloc, script, stdin, given)?;
    let mut reasons = clear_reasons(alloc, script.lines.as_slice())?;
    reasons.append(&mut outcome.reasons)?;
    let settled = is_none(reasons.as_slice());
    Ok(Reasoned {
        plain: Plain {
            out: outcome.out,
            files: outcome.files,
            rest: outcome.rest,
            settled,
            soft: outcome.soft,
        },
        reasons,
    })
}
