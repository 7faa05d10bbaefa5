//! Gradings.
ghost use Rattle.std.specs.Prelude.{◌≡◌};
ghost use Rattle.xvsh_c.specs.GradeCalls.{GradeCall, TellsGraded, TellsRefusal, refusal_number, refusal_place, refusal_words};

use crate::answer::Answer;
use crate::asks::is_on;
use crate::handing::given_out;
use embed::{GradeRefusal, Task, grade_of};
use std::alloc::Global;
use xvsh_grades::Report;

// The number of a refusal, and its place.
fn parts(refusal: &GradeRefusal) -> (u32, usize)
    ensures number { result.0 ≡ refusal_number refusal.now }
    ensures place { result.1 ≡ refusal_place refusal.now }
{
    match refusal {
        GradeRefusal::TooManyFiles(file) => (6, *file),
        GradeRefusal::Memory => (8, 0),
        GradeRefusal::BadSuite(line, _) => (71, *line),
        GradeRefusal::SuiteTooLong => (72, 0),
        GradeRefusal::UnusedScript => (73, 0),
        GradeRefusal::EveryWay(test) => (74, *test),
    }
}

// What is wrong with a suite, handed to the caller.
fn words_out(refusal: GradeRefusal) -> &'static [u8]
    ensures { result.now ≡ refusal_words refusal }
{
    match refusal {
        GradeRefusal::BadSuite(_, sentence) => given_out(sentence.into_bytes()),
        GradeRefusal::TooManyFiles(_)
        | GradeRefusal::Memory
        | GradeRefusal::SuiteTooLong
        | GradeRefusal::UnusedScript
        | GradeRefusal::EveryWay(_) => &[],
    }
}

// Puts why nothing is graded into an answer.
fn put_refusal(refusal: GradeRefusal, answer: &mut Answer)
    ensures { TellsRefusal answer.new refusal }
{
    answer.clear();
    let (number, place) = parts(&refusal);
    answer.place = place as u64;
    answer.status = number;
    answer.diag = words_out(refusal);
}

// Puts a report into an answer.
fn put_graded(report: Report, answer: &mut Answer)
    ensures { TellsGraded answer.new report }
{
    answer.clear();
    answer.fine = report.has_passed as u32;
    answer.json = given_out(report.text);
}

/// `xvsh_grade_call`: grades a script by a suite, or unless `alone` is 0 the suite's own scripts.
#[unsafe(no_mangle)]
pub extern "C" fn xvsh_grade_call(
    alloc: Global,
    task: &Task<'_>,
    suite: &[u8],
    states: u64,
    alone: u32,
    answer: &mut Answer,
)
    ensures { GradeCall task.now suite.now states alone answer.new }
{
    match grade_of(alloc, task, suite, states, is_on(alone)) {
        Ok(report) => put_graded(report, answer),
        Err(refusal) => put_refusal(refusal, answer),
    }
}
