//! A suite on the script of a task.
ghost use Rattle.std.specs.Prelude.{◌≡◌, ◌≤◌, All, IfErr, IfOk, None, OnOk, length, position};
ghost use Rattle.mem_files.specs.Listing.{max_files};
ghost use Rattle.xvsh_read.specs.Reading.{max_input};
ghost use Rattle.xvsh_grades.specs.Marks.{AreMarks, other_tests, own_tests};
ghost use Rattle.xvsh_grades.specs.Passed.{HasVerdict};
ghost use Rattle.embed.specs.Grades.{AreTestsOf, IsGradeAnswer, IsGradeRefusal, NeedNoThreads, ReportsOn, most_by, reads_of};

use crate::marking::{marks_on, own_marks};
use crate::refusal::{GradeRefusal, of_fault};
use crate::suite_host::SuiteHost;
use crate::task::Task;
use grade_tests::{Asked, Loaded, read_tests};
use mem_files::MAX_FILES;
use std::alloc::{AllocError, Global};
use xvsh_grades::{Form, Mark, Report, report_of};
use xvsh_read::{MAX_INPUT, STDIN};

// Tests how long the suite is, and how many files there are.
fn check_lengths(task: &Task<'_>, suite: &[u8], states: u64) -> Result<(), GradeRefusal>
    ensures suite { OnOk result (length suite.now ≤ max_input) }
    ensures files { OnOk result (length task.now.files.now ≤ max_files) }
    ensures fault { IfErr result (IsGradeRefusal task.now suite.now states) }
{
    if suite.len() > MAX_INPUT {
        return Err(GradeRefusal::SuiteTooLong);
    }
    if task.files.len() > MAX_FILES {
        return Err(GradeRefusal::TooManyFiles(MAX_FILES + 1));
    }
    Ok(())
}

// Through how many states a test tries orders at most, whatever the suite says.
fn most_by(states: u64) -> Option<u64>
    ensures { result ≡ most_by states }
{
    if states == 0 { None } else { Some(states) }
}

// The place of the first test that is to run in every way.
fn first_in_every_way(tests: &[Loaded]) -> Option<usize>
    ensures first { result ≡ position (λ test. test.every_way) tests.now }
    ensures none { result ≡ None → NeedNoThreads tests.now }
{
    tests.iter().position(|test| test.every_way)
}

// The tests of the suite, none of which is to run in every way.
fn tests_of(
    alloc: Global,
    task: &Task<'_>,
    suite: &[u8],
    states: u64,
    is_alone: bool,
) -> Result<Vec<Loaded>, GradeRefusal>
    ensures tests { IfOk result (λ tests. AreTestsOf task.now suite.now states tests.items) }
    ensures ways { IfOk result (λ tests. NeedNoThreads tests.items) }
    ensures fault { IfErr result (IsGradeRefusal task.now suite.now states) }
{
    let asked = Asked {
        suite: STDIN,
        has_scripts: !is_alone,
        states: most_by(states),
    };
    let mut host = SuiteHost {
        suite,
        files: task.files,
    };
    let tests = match read_tests(alloc, &asked, &mut host) {
        Ok(tests) => tests,
        Err(fault) => return Err(of_fault(fault)),
    };
    match first_in_every_way(tests.as_slice()) {
        None => Ok(tests),
        Some(place) => Err(GradeRefusal::EveryWay(place + 1)),
    }
}

// The marks of the tests: of those with a script of their own, and unless they stand alone of the others on this one.
fn marks_of<'t>(
    alloc: Global,
    tests: &'t [Loaded],
    script: &[u8],
    is_alone: bool,
) -> Result<Vec<Mark<'t, 'static>>, AllocError>
    requires { NeedNoThreads tests.now }
    ensures marks { IfOk result (λ marks. AreMarks (own_tests tests.now) (other_tests tests.now) (reads_of is_alone script.now) marks.items) }
    ensures judged { IfOk result (λ marks. All HasVerdict marks.items) }
{
    let mut marks = own_marks(alloc, tests)?;
    if is_alone {
        return Ok(marks);
    }
    let mut others = marks_on(alloc, tests, script)?;
    marks.append(&mut others)?;
    Ok(marks)
}

// The report of the tests.
fn report_on(
    alloc: Global,
    tests: &[Loaded],
    script: &[u8],
    is_alone: bool,
) -> Result<Report, AllocError>
    requires { NeedNoThreads tests.now }
    ensures { IfOk result (ReportsOn tests.now is_alone script.now) }
{
    let marks = marks_of(alloc, tests, script, is_alone)?;
    report_of(alloc, marks.as_slice(), Form::Json, false)
}

/// Grades the script of a task by the suite of these bytes, as `xvsh grade --json`; with `is_alone` the suite's tests have scripts of their
/// own, and the task's isn't looked at. The suite names the task's files by their paths, as they stand in it. Each test tries orders
/// through at most so many states, where these are not 0, whatever the suite says. The report names the script `-`. Neither the task's
/// input nor its meaning of `>>` is looked at, since each test has its own.
///
/// `SuiteTooLong`; `TooManyFiles` of more than 200; `BadSuite` where the suite is wrong, names a file that isn't there or is too long, or
/// has a test without a script where it stands alone; `UnusedScript` where no test is run on the task's; `EveryWay` where a test is to run
/// in every way, which takes threads; `Memory` where memory is refused.
pub fn grade_of(
    alloc: Global,
    task: &Task<'_>,
    suite: &[u8],
    states: u64,
    is_alone: bool,
) -> Result<Report, GradeRefusal>
    ensures graded { IfOk result (IsGradeAnswer task.now suite.now states is_alone) }
    ensures fault { IfErr result (IsGradeRefusal task.now suite.now states) }
{
    check_lengths(task, suite, states)?;
    let tests = tests_of(alloc, task, suite, states, is_alone)?;
    match report_on(alloc, tests.as_slice(), task.script, is_alone) {
        Ok(report) => Ok(report),
        Err(_) => Err(GradeRefusal::Memory),
    }
}
