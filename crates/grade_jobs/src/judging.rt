//! Verdicts of tests on scripts, in order, by threads.

ghost use Rattle.std.specs.Prelude.{◌≡◌, IfOk};
ghost use Rattle.std.specs.List.{AllZip};
ghost use Rattle.grade_jobs.specs.Judges.{IsFoundOn, IsVerdictOn};

use crate::every_way::judge_every_way;
use crate::known::{Done, Known, is_among};
use grade_verdicts::{Task, Verdict, judge};
use rayon::prelude::*;
use std::alloc::{AllocError, Global};
use std::sync::Wait;
use std::thread::Threads;
use std::time::Clock;

/// A test and a script (own).
#[derive(Clone, Copy)]
pub struct Job<'t, 'b> {
    pub task: Task<'t>,
    /// Whether a script that passes is run in every way, too.
    pub every_way: bool,
    /// The script.
    pub bytes: &'b [u8],
}

// The verdict of a test on a script.
fn judge_one<R: Threads + Wait + Clock + Sync>(
    rt: &R,
    alloc: Global,
    job: &Job<'_, '_>,
) -> Result<Verdict, AllocError>
    ensures { IfOk result (IsVerdictOn job.now) }
{
    if job.every_way {
        judge_every_way(rt, alloc, &job.task, job.bytes)
    } else {
        judge(alloc, &job.task, job.bytes)
    }
}

// The job with its verdict; `None` where memory is refused.
fn done_of<'t, 'b, R: Threads + Wait + Clock + Sync>(
    rt: &R,
    alloc: Global,
    job: &Job<'t, 'b>,
) -> Option<Done<'t, 'b>> {
    match judge_one(rt, alloc, job) {
        Ok(verdict) => Some(Done::new(*job, verdict)),
        Err(_) => None,
    }
}

// The jobs with their verdicts, but for those to which memory was refused, by at most so many threads.
fn judge_each<'t, 'b, R: Threads + Wait + Clock + Sync>(
    rt: &R,
    alloc: Global,
    jobs: &[Job<'t, 'b>],
    threads: usize,
) -> Result<Vec<Option<Done<'t, 'b>>>, AllocError> {
    let least = jobs.len().div_ceil(threads.max(1));
    jobs.par_iter()
        .map(|job: &Job<'_, '_>| -> Option<Done<'_, '_>> { done_of(rt, alloc, job) })
        .with_min_len(least)
        .collect::<Vec<Option<Done<'t, 'b>>>>(rt, alloc)
}

// The jobs whose work is neither known nor that of an earlier one.
fn fresh_of<'t, 'b>(
    alloc: Global,
    jobs: &[Job<'t, 'b>],
    known: &Known<'_>,
) -> Result<Vec<Job<'t, 'b>>, AllocError> {
    let mut fresh: Vec<Job<'t, 'b>> = Vec::new(alloc);
    for job in jobs {
        if !known.has(job) && !is_among(fresh.as_slice(), job) {
            fresh.push(*job)?;
        }
    }
    Ok(fresh)
}

// The verdict on the job by those on the same work; `None` where there is none.
fn verdict_among(alloc: Global, done: &[Option<Done<'_, '_>>], job: &Job<'_, '_>) -> Option<Verdict>
    ensures { IsFoundOn job.now result }
{
    for other in done {
        if let Some(other) = other {
            let verdict = other.verdict_on(alloc, job);
            if verdict.is_some() {
                return verdict;
            }
        }
    }
    None
}

// The verdict on the job by what is known, or was judged now.
fn verdict_on(
    alloc: Global,
    known: &Known<'_>,
    done: &[Option<Done<'_, '_>>],
    job: &Job<'_, '_>,
) -> Option<Verdict>
    ensures { IsFoundOn job.now result }
{
    let verdict = known.verdict_on(alloc, job);
    if verdict.is_some() {
        return verdict;
    }
    verdict_among(alloc, done, job)
}

// The verdicts on the jobs, in their order, by what is known or was judged now.
fn verdicts_on(
    alloc: Global,
    known: &Known<'_>,
    done: &[Option<Done<'_, '_>>],
    jobs: &[Job<'_, '_>],
) -> Result<Vec<Option<Verdict>>, AllocError>
    ensures { IfOk result (λ verdicts. AllZip IsFoundOn jobs.now verdicts.items) }
{
    let mut verdicts = Vec::with_capacity(alloc, jobs.len())?;
    for job in jobs {
        verdicts.push(verdict_on(alloc, known, done, job))?;
    }
    Ok(verdicts)
}

/// The verdicts of tests on scripts, in their order, by at most so many threads (own): each job has one, and it is due of its own
/// test on its own script, or `None` where memory was refused to it. Work that is known, or stands among the jobs more than once, is
/// judged once; what is judged is known from then on, as far as there is room.
///
/// `AllocError` where memory for the lists of them is refused.
pub fn judge_all<'t, R: Threads + Wait + Clock + Sync>(
    rt: &R,
    alloc: Global,
    jobs: &[Job<'t, '_>],
    threads: usize,
    known: &mut Known<'t>,
) -> Result<Vec<Option<Verdict>>, AllocError>
    ensures { IfOk result (λ verdicts. AllZip IsFoundOn jobs.now verdicts.items) }
{
    let fresh = fresh_of(alloc, jobs, known)?;
    let done = judge_each(rt, alloc, fresh.as_slice(), threads)?;
    let verdicts = verdicts_on(alloc, known, done.as_slice(), jobs)?;
    known.keep_all(alloc, done);
    Ok(verdicts)
}
