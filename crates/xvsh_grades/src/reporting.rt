//! The report of what was found.

ghost use Rattle.std.specs.Prelude.{◌≡◌, ◌≢◌, ◌↔◌, [], All, IfOk, IsTrue, List, sum_by};
ghost use Rattle.std.specs.List.{AllZip};
ghost use Rattle.grade_report.specs.Sums.{IsSumOf};
ghost use Rattle.grade_report.specs.declared.rows.Row.{Row};
ghost use Rattle.xvsh_grades.specs.Passed.{AreAllPassed, HasVerdict, IsPassed, IsReportOf, IsRowOf, IsStatusOf};
ghost use Rattle.xvsh_grades.specs.declared.marks.Mark.{Mark};
ghost use Rattle.xvsh_read.specs.Status.{status_code};

use crate::marks::Mark;
use crate::request::{Form, Report};
use grade_report::{Row, gradescope_text, object_text, sum_of, table_text, tap_text};
use grade_verdicts::passes;
use std::alloc::{AllocError, Global};
use xvsh_read::Status;

// The row of a mark.
fn row_of<'r>(mark: &'r Mark<'_, '_>) -> Row<'r>
    ensures { IsRowOf mark.now result }
{
    Row {
        script: mark.script,
        test: mark.test.name.as_str(),
        points: mark.test.points,
        verdict: mark.verdict.as_ref(),
    }
}

// The rows of the report.
fn rows_of<'r>(alloc: Global, marks: &'r [Mark<'_, '_>]) -> Result<Vec<Row<'r>>, AllocError>
    ensures { IfOk result (λ rows. AllZip IsRowOf marks.now rows.items) }
{
    let mut rows = Vec::with_capacity(alloc, marks.len())?;
    for mark in marks {
        rows.push(row_of(mark))?;
    }
    Ok(rows)
}

// Whether the mark gives its test's points.
fn is_passed(mark: &Mark<'_, '_>) -> bool
    ensures { IsTrue result ↔ IsPassed mark.now }
{
    match &mark.verdict {
        Some(verdict) => passes(verdict),
        None => false,
    }
}

// Whether the mark is a verdict at all.
fn is_judged(mark: &Mark<'_, '_>) -> bool
    ensures { IsTrue result ↔ HasVerdict mark.now }
{
    mark.verdict.is_some()
}

// Whether there is a mark, and each gives its test's points.
fn are_passed(marks: &[Mark<'_, '_>]) -> bool
    ensures { IsTrue result ↔ AreAllPassed marks.now }
{
    !marks.is_empty() && marks.iter().all(|mark| is_passed(mark))
}

// Whether each is a verdict.
fn are_judged(marks: &[Mark<'_, '_>]) -> bool
    ensures { IsTrue result ↔ All HasVerdict marks.now }
{
    marks.iter().all(|mark| is_judged(mark))
}

// The text of the report.
fn text_of(
    alloc: Global,
    rows: &[Row<'_>],
    form: Form,
    is_coloured: bool,
) -> Result<Vec<u8>, AllocError> {
    match form {
        Form::Table => table_text(alloc, rows, is_coloured),
        Form::Json => object_text(alloc, rows),
        Form::Tap => tap_text(alloc, rows),
        Form::Gradescope => gradescope_text(alloc, rows),
    }
}

/// The report of these marks, in this form (own): their sums, whether there is one and each gives its test's points, and whether each is a verdict.
/// A text for people may be in colour.
///
/// `AllocError` where memory is refused.
pub fn report_of(
    alloc: Global,
    marks: &[Mark<'_, '_>],
    form: Form,
    is_coloured: bool,
) -> Result<Report, AllocError>
    ensures { IfOk result (IsReportOf marks.now) }
{
    let rows = rows_of(alloc, marks)?;
    let text = text_of(alloc, rows.as_slice(), form, is_coloured)?;
    Ok(Report {
        text,
        sum: sum_of(rows.as_slice()),
        has_passed: are_passed(marks),
        is_judged: are_judged(marks),
    })
}

/// The status of a report: 4 where a test wasn't judged, else 0 where every test was passed, else 3.
pub(crate) fn status_of(report: &Report) -> Status
    ensures { (marks : List Mark) → IsReportOf marks report.now → IsStatusOf marks (status_code result) }
{
    if !report.is_judged {
        Status::NoRoom
    } else if report.has_passed {
        Status::Done
    } else {
        Status::Amiss
    }
}
