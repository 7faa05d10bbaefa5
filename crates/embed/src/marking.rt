//! The verdicts of tests, one after the other in the thread of the call.
ghost use Rattle.std.specs.Prelude.{◌≡◌, ◌++◌, All, IfOk, List, OnOk, Some, codes, false};
ghost use Rattle.std.specs.List.{AllZip};
ghost use Rattle.std.specs.Option.{option_copied};
ghost use Rattle.xvsh_grades.specs.Marks.{IsMarkOn, IsOwnMark, IsVerdictOf, other_tests, own_tests};
ghost use Rattle.xvsh_grades.specs.Passed.{HasVerdict};
ghost use Rattle.xvsh_grades.specs.declared.marks.Mark.{Mark};

use grade_tests::Loaded;
use grade_verdicts::{Verdict, judge};
use std::alloc::{AllocError, Global};
use xvsh_grades::Mark;
use xvsh_read::STDIN;

// The verdict of a test on a script.
fn verdict_of(alloc: Global, test: &Loaded, bytes: &[u8]) -> Result<Verdict, AllocError>
    requires { test.now.every_way ≡ false }
    ensures { IfOk result (IsVerdictOf test.now bytes.now) }
{
    let verdict = judge(alloc, &test.task(), bytes)?;
    Ok(verdict)
}

// What a test says of these bytes, as the script at a path, or as its own.
fn mark_of<'t>(
    alloc: Global,
    test: &'t Loaded,
    script: Option<&'static str>,
    bytes: &[u8],
) -> Result<Mark<'t, 'static>, AllocError>
    requires { test.now.every_way ≡ false }
    ensures mark { IfOk result (IsMarkOn (option_copied script.entry) bytes.now test.now) }
    ensures judged { IfOk result HasVerdict }
{
    let verdict = verdict_of(alloc, test, bytes)?;
    Ok(Mark {
        script,
        test,
        verdict: Some(verdict),
    })
}

/// The marks of the tests with a script of their own, in order. None of the tests runs in every way.
///
/// `AllocError` where memory is refused.
pub(crate) fn own_marks<'t>(
    alloc: Global,
    tests: &'t [Loaded],
) -> Result<Vec<Mark<'t, 'static>>, AllocError>
    requires { All (λ test. test.every_way ≡ false) tests.now }
    ensures marks { IfOk result (λ marks. AllZip IsOwnMark (own_tests tests.now) marks.items) }
    ensures judged { IfOk result (λ marks. All HasVerdict marks.items) }
{
    let mut marks = Vec::new(alloc);
    for test in tests {
        match &test.script {
            Some(script) => marks.push(mark_of(alloc, test, None, script.as_slice())?)?,
            None => {}
        }
    }
    Ok(marks)
}

/// The marks of the other tests on the script that is standard input, in order. None of the tests runs in every way.
///
/// `AllocError` where memory is refused.
pub(crate) fn marks_on<'t>(
    alloc: Global,
    tests: &'t [Loaded],
    script: &[u8],
) -> Result<Vec<Mark<'t, 'static>>, AllocError>
    requires { All (λ test. test.every_way ≡ false) tests.now }
    ensures marks { IfOk result (λ marks. AllZip (IsMarkOn (Some (codes "-")) script.now) (other_tests tests.now) marks.items) }
    ensures judged { IfOk result (λ marks. All HasVerdict marks.items) }
{
    let mut marks = Vec::new(alloc);
    for test in tests {
        if test.script.is_none() {
            marks.push(mark_of(alloc, test, Some(STDIN), script)?)?;
        }
    }
    Ok(marks)
}
