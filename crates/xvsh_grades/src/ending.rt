//! How `grade` ends.

ghost use Rattle.std.specs.Prelude.{List};
ghost use Rattle.xvsh_grades.specs.Endings.{EndsGrading, Reports};
ghost use Rattle.xvsh_grades.specs.Passed.{IsReportOf};
ghost use Rattle.xvsh_grades.specs.declared.marks.Mark.{Mark};

use crate::grading::grade;
use crate::reporting::status_of;
use crate::request::{GradeRequest, Grading, Report};
use std::alloc::Global;
use std::io::Write;
use std::sync::Wait;
use std::thread::Threads;
use std::time::Clock;
use xvsh_read::{Console, write};

// Writes the report, and returns the status: 1 where it can't be written.
fn write_report<W: Write>(out: &mut W, report: &Report) -> u8
    ensures { (marks : List Mark) → IsReportOf marks report.now → Reports (W.contents out.old) (W.contents out.new) marks report.now result }
{
    match write(out, report.text.as_slice()) {
        Ok(()) => status_of(report).code(),
        Err(_) => 1,
    }
}

/// Grades what is asked for, writes the report to the console, and returns the status with which the program ends: 4 where a test wasn't
/// judged, else 0 where every test was passed, else 3; 1 where the report can't be written. A fault goes to standard error as one line, and its
/// status is that of the program.
pub fn run_grade<R: Threads + Wait + Clock + Sync, H: Grading, W: Write, E: Write>(
    rt: &R,
    alloc: Global,
    request: &GradeRequest<'_>,
    console: &mut Console<H, W, E>,
) -> u8
    ensures { EndsGrading (H.input console.old.host) (H.file console.old.host) request.now (W.contents console.old.out) (W.contents console.new.out) result }
{
    let graded = grade(rt, alloc, request, &mut console.host);
    console.host.ended();
    match graded {
        Ok(report) => write_report(&mut console.out, &report),
        Err(fault) => {
            let _ = writeln!(console.err, "xvsh: {fault}");
            fault.status().code()
        }
    }
}
