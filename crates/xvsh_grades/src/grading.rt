//! A suite on scripts.

ghost use Rattle.std.specs.Prelude.{◌≡◌, ◌++◌, IfOk, List, OnOk, None, [], filter, is_none, is_some, map};
ghost use Rattle.std.specs.List.{AllZip};
ghost use Rattle.xvsh_read.specs.Reading.{told_at};
ghost use Rattle.xvsh_grades.specs.Jobs.{IsMarkOf, IsOwnPiece};
ghost use Rattle.xvsh_grades.specs.Marks.{AreMarks, IsGraded, IsReadAt, ScriptRead, other_tests, own_tests};
ghost use Rattle.xvsh_grades.specs.Passed.{IsReportOf};
ghost use Rattle.xvsh_grades.specs.declared.marks.Mark.{Mark};

use crate::batches::Book;
use crate::marks::{Mark, Piece, mark_all};
use crate::plan::Plan;
use crate::reporting::report_of;
use crate::request::{GradeRequest, Grading, Report};
use grade_tests::{Asked, GradeFault, Loaded, read_tests};
use std::alloc::{AllocError, Global};
use std::collections::BTreeSet;
use std::sync::Wait;
use std::thread::Threads;
use std::time::Clock;
use xvsh_read::STDIN;

// Refuses a path that stands twice.
fn refuse_twice<'a>(alloc: Global, request: &GradeRequest<'a>) -> Result<(), GradeFault<'a>> {
    let mut paths = BTreeSet::new(alloc);
    if request.suite == STDIN {
        paths.insert(STDIN)?;
    }
    for path in request.scripts {
        if !paths.insert(*path)? {
            return Err(GradeFault::Twice(*path));
        }
    }
    Ok(())
}

// The tests with a script of their own.
fn own_pieces<'t, 'a>(
    alloc: Global,
    tests: &'t [Loaded],
) -> Result<Vec<Piece<'t, 'a, 't>>, AllocError>
    ensures { IfOk result (λ pieces. AllZip IsOwnPiece (own_tests tests.now) pieces.items) }
{
    let mut pieces = Vec::new(alloc);
    for test in tests {
        match &test.script {
            Some(script) => pieces.push(Piece {
                script: None,
                test,
                bytes: script.as_slice(),
            })?,
            None => {}
        }
    }
    Ok(pieces)
}

// The tests without one.
fn tests_for_scripts(alloc: Global, tests: &[Loaded]) -> Result<Vec<&Loaded>, AllocError>
    ensures { IfOk result (λ others. map (λ test. test.now) others.items ≡ other_tests tests.now) }
{
    let mut others = Vec::new(alloc);
    for test in tests {
        if test.script.is_none() {
            others.push(test)?;
        }
    }
    Ok(others)
}

// How many pieces are judged between two reports of how far it is.
const BATCH: usize = 256;

// Judges the scripts that tests have of their own, in order.
fn judge_own<'t, 'a, R: Threads + Wait + Clock + Sync, H: Grading>(
    rt: &R,
    plan: &Plan<'t, '_>,
    host: &mut H,
    pieces: &[Piece<'t, 'a, 't>],
    book: &mut Book<'t, 'a>,
) -> Result<(), AllocError>
    ensures found { OnOk result ((found : List Mark) × (book.new.marks.items ≡ book.old.marks.items ++ found) × AllZip IsMarkOf pieces.now found) }
    ensures waiting { book.new.waiting ≡ book.old.waiting }
    ensures stays { H.file host.new ≡ H.file host.old }
{
    let mut done = 0;
    'batches: while done < pieces.len() {
        let end = done.saturating_add(BATCH).min(pieces.len());
        let part = &pieces[done..end];
        mark_all(rt, plan, part, &mut book.known, &mut book.marks)?;
        host.graded(book.marks.len(), plan.of);
        done = end;
    }
    Ok(())
}

// The marks of the tests: first of the scripts that tests have of their own, then of each script.
fn judge_suite<'t, 'a, R: Threads + Wait + Clock + Sync, H: Grading>(
    rt: &R,
    alloc: Global,
    request: &GradeRequest<'a>,
    host: &mut H,
    tests: &'t [Loaded],
) -> Result<Vec<Mark<'t, 'a>>, GradeFault<'a>>
    ensures { IfOk result (λ marks. (reads : List ScriptRead) × AllZip (IsReadAt (told_at None (H.file host.old))) request.now.scripts.now reads
        × AreMarks (own_tests tests.now) (other_tests tests.now) reads marks.items) }
{
    let own = own_pieces(alloc, tests)?;
    let others = tests_for_scripts(alloc, tests)?;
    let of = request.scripts.len().saturating_mul(others.len());
    let plan = Plan {
        alloc,
        tests: others.as_slice(),
        threads: request.threads,
        of: of.saturating_add(own.len()),
    };
    let mut book = Book::new(alloc);
    judge_own(rt, &plan, host, own.as_slice(), &mut book)?;
    book.take_all(rt, &plan, host, request.scripts)?;
    Ok(book.marks)
}

/// Runs the tests of a suite on their scripts, and returns the report: first the tests with a script of their own, then those
/// without one on each script, in the order of the paths (own).
///
/// Nothing is graded where the suite is wrong, names what can't be read, or has no test for the scripts, where a path is given
/// twice, or where a script can't be read. A script of more than 1,048,576 bytes has the verdict `TooLarge`.
pub fn grade<'a, R: Threads + Wait + Clock + Sync, H: Grading>(
    rt: &R,
    alloc: Global,
    request: &GradeRequest<'a>,
    host: &mut H,
) -> Result<Report, GradeFault<'a>>
    ensures { IfOk result (λ report. (marks : List Mark) × IsGraded (H.input host.old) (H.file host.old) request.now marks × IsReportOf marks report) }
{
    refuse_twice(alloc, request)?;
    let asked = Asked {
        suite: request.suite,
        has_scripts: !request.scripts.is_empty(),
        states: request.states,
    };
    let tests = read_tests(alloc, &asked, host)?;
    let marks = judge_suite(rt, alloc, request, host, tests.as_slice())?;
    let report = report_of(alloc, marks.as_slice(), request.form, request.is_coloured)?;
    Ok(report)
}
