//! Verdicts with what they are of.

ghost use Rattle.std.specs.Prelude.{◌≡◌, ◌++◌, IfOk, OnOk, List};
ghost use Rattle.std.specs.List.{AllZip};
ghost use Rattle.xvsh_grades.specs.Jobs.{IsFoundOf, IsJobOf, IsMarkOf};
ghost use Rattle.xvsh_grades.specs.declared.marks.Mark.{Mark};

use crate::plan::Plan;
use grade_jobs::{Job, Known, judge_all};
use grade_tests::Loaded;
use grade_verdicts::Verdict;
use std::alloc::{AllocError, Global};
use std::sync::Wait;
use std::thread::Threads;
use std::time::Clock;

/// What a test says of a script (own).
#[derive(Drop)]
pub struct Mark<'t, 'a> {
    /// The script's path; `None` where the test has its own.
    pub script: Option<&'a str>,
    pub test: &'t Loaded,
    /// `None` where memory was refused to it.
    pub verdict: Option<Verdict>,
}

/// A test and the bytes of a script that are judged by it.
#[derive(Clone, Copy)]
pub struct Piece<'t, 'a, 'b> {
    /// The script's path; `None` where the test has its own.
    pub script: Option<&'a str>,
    pub test: &'t Loaded,
    pub bytes: &'b [u8],
}

// The job of a piece.
fn job_of<'t, 'b>(piece: &Piece<'t, '_, 'b>) -> Job<'t, 'b>
    ensures { IsJobOf piece.now result }
{
    Job {
        task: piece.test.task(),
        every_way: piece.test.every_way,
        bytes: piece.bytes,
    }
}

// The jobs of the pieces, in their order.
fn jobs_of<'t, 'b>(
    alloc: Global,
    pieces: &[Piece<'t, '_, 'b>],
) -> Result<Vec<Job<'t, 'b>>, AllocError>
    ensures { IfOk result (λ jobs. AllZip IsJobOf pieces.now jobs.items) }
{
    let mut jobs = Vec::with_capacity(alloc, pieces.len())?;
    for piece in pieces {
        jobs.push(job_of(piece))?;
    }
    Ok(jobs)
}

// The verdicts of the pieces, in their order: each has one, and it is due, or `None` where memory was refused to it.
fn judge_pieces<'t, R: Threads + Wait + Clock + Sync>(
    rt: &R,
    plan: &Plan<'t, '_>,
    pieces: &[Piece<'t, '_, '_>],
    known: &mut Known<'t>,
) -> Result<Vec<Option<Verdict>>, AllocError>
    ensures { IfOk result (λ verdicts. AllZip IsFoundOf pieces.now verdicts.items) }
{
    let jobs = jobs_of(plan.alloc, pieces)?;
    let verdicts = judge_all(rt, plan.alloc, jobs.as_slice(), plan.threads, known)?;
    Ok(verdicts)
}

// Adds the verdicts of the pieces, in their order.
fn add_marks<'t, 'a>(
    pieces: &[Piece<'t, 'a, '_>],
    verdicts: Vec<Option<Verdict>>,
    marks: &mut Vec<Mark<'t, 'a>>,
) -> Result<(), AllocError>
    requires { AllZip IsFoundOf pieces.now verdicts.items }
    ensures { OnOk result ((found : List Mark) × (marks.new.items ≡ marks.old.items ++ found) × AllZip IsMarkOf pieces.now found) }
{
    let mut left = verdicts.into_iter();
    for piece in pieces {
        let Some(verdict) = left.next() else {
            break;
        };
        marks.push(Mark {
            script: piece.script,
            test: piece.test,
            verdict,
        })?;
    }
    Ok(())
}

/// Judges the pieces by at most so many threads, but for those that were judged before, and adds their verdicts, in order.
pub(crate) fn mark_all<'t, 'a, R: Threads + Wait + Clock + Sync>(
    rt: &R,
    plan: &Plan<'t, '_>,
    pieces: &[Piece<'t, 'a, '_>],
    known: &mut Known<'t>,
    marks: &mut Vec<Mark<'t, 'a>>,
) -> Result<(), AllocError>
    ensures { OnOk result ((found : List Mark) × (marks.new.items ≡ marks.old.items ++ found) × AllZip IsMarkOf pieces.now found) }
{
    let verdicts = judge_pieces(rt, plan, pieces, known)?;
    add_marks(pieces, verdicts, marks)
}
