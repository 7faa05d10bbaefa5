//! Jobs that were judged, with their verdicts.

ghost use Rattle.std.specs.Prelude.{◌≡◌, ◌↔◌, IsTrue};
ghost use Rattle.grade_jobs.specs.Judges.{IsFoundOn, IsSameJob, IsVerdictOn};

use crate::judging::Job;
use grade_verdicts::{Task, Verdict, copy_of, is_same_task};
use std::alloc::Global;
use std::marker::Model;

// Whether both are the same work.
fn is_same_job(one: &Job<'_, '_>, other: &Job<'_, '_>) -> bool
    ensures { IsTrue result ↔ IsSameJob one.now other.now }
{
    one.bytes == other.bytes
        && one.every_way == other.every_way
        && is_same_task(&one.task, &other.task)
}

/// Whether one of the jobs is the same work.
pub(crate) fn is_among(jobs: &[Job<'_, '_>], job: &Job<'_, '_>) -> bool {
    jobs.iter().any(|other| is_same_job(other, job))
}

// The verdict on the job, by one that is due of another; `None` where that isn't the same work, or memory for a copy is refused.
fn shared(
    alloc: Global,
    other: &Job<'_, '_>,
    verdict: &Verdict,
    job: &Job<'_, '_>,
) -> Option<Verdict>
    requires { IsVerdictOn other.now verdict.now }
    ensures { IsFoundOn job.now result }
{
    if !is_same_job(other, job) {
        return None;
    }
    match copy_of(alloc, verdict) {
        Ok(copy) => Some(copy),
        Err(_) => None,
    }
}

/// A job and its verdict, which is due.
#[derive(Drop)]
pub struct Done<'t, 'b> {
    job: Job<'t, 'b>,
    verdict: Verdict,
}

impl<'t, 'b> Model for Done<'t, 'b> {
    ghost use Rattle.grade_verdicts.specs.declared.verdict.Verdict.{Verdict};
    ghost use Rattle.grade_jobs.specs.Judges.{IsVerdictOn};
    ghost use Rattle.grade_jobs.specs.declared.judging.Job.{Job};

    ghost Value = { Job × Verdict };

    ghost view = { λ d. (d.job, d.verdict) };

    ghost invariant = { λ d. IsVerdictOn d.job d.verdict };
}

impl<'t, 'b> Done<'t, 'b> {
    /// The job with a verdict that is due of it.
    pub(crate) fn new(job: Job<'t, 'b>, verdict: Verdict) -> Done<'t, 'b>
        requires { IsVerdictOn job verdict }
    {
        Done { job, verdict }
    }

    /// The verdict on a job, where it is the same work.
    pub(crate) fn verdict_on(&self, alloc: Global, job: &Job<'_, '_>) -> Option<Verdict>
        ensures { IsFoundOn job.now result }
    {
        shared(alloc, &self.job, &self.verdict, job)
    }

    // How many bytes the script has.
    fn size(&self) -> usize {
        self.job.bytes.len()
    }
}

/// A job that was judged, with its own copy of the script.
#[derive(Drop)]
pub struct Kept<'t> {
    task: Task<'t>,
    every_way: bool,
    bytes: Vec<u8>,
    verdict: Verdict,
}

impl<'t> Model for Kept<'t> {
    ghost use Rattle.std.specs.Prelude.{Bool};
    ghost use Rattle.mem_files.specs.Name.{Bytes};
    ghost use Rattle.grade_verdicts.specs.declared.expected.Task.{Task};
    ghost use Rattle.grade_verdicts.specs.declared.verdict.Verdict.{Verdict};
    ghost use Rattle.grade_jobs.specs.Judges.{IsDue};

    ghost Value = { Task × Bool × Bytes × Verdict };

    ghost view = { λ k. (k.task, k.every_way, k.bytes.items, k.verdict) };

    ghost invariant = { λ k. IsDue k.task k.every_way k.bytes.items k.verdict };
}

impl<'t> Kept<'t> {
    // The job with its own copy of the script; `None` where memory for that is refused.
    fn new(alloc: Global, done: Done<'t, '_>) -> Option<Kept<'t>> {
        let Done { job, verdict } = done;
        match Vec::from_slice(alloc, job.bytes) {
            Ok(bytes) => Some(Kept {
                task: job.task,
                every_way: job.every_way,
                bytes,
                verdict,
            }),
            Err(_) => None,
        }
    }

    // Whether the job is the same work.
    fn is_same(&self, job: &Job<'_, '_>) -> bool {
        is_same_job(
            &Job {
                task: self.task,
                every_way: self.every_way,
                bytes: self.bytes.as_slice(),
            },
            job,
        )
    }

    // The verdict on a job, where it is the same work.
    fn verdict_on(&self, alloc: Global, job: &Job<'_, '_>) -> Option<Verdict>
        ensures { IsFoundOn job.now result }
    {
        let own = Job {
            task: self.task,
            every_way: self.every_way,
            bytes: self.bytes.as_slice(),
        };
        shared(alloc, &own, &self.verdict, job)
    }
}

// How many jobs are known, and how many bytes of scripts are kept for them.
const MOST: usize = 16_384;

const MOST_BYTES: usize = 16_777_216;

/// The work that was judged before, so that the same isn't judged again (own).
#[derive(Drop)]
pub struct Known<'t> {
    kept: Vec<Kept<'t>>,
    // How many bytes of scripts more are kept.
    room: usize,
}

impl<'t> Known<'t> {
    /// Nothing was judged yet.
    pub fn new(alloc: Global) -> Known<'t> {
        Known {
            kept: Vec::new(alloc),
            room: MOST_BYTES,
        }
    }

    /// Whether the job's work is known.
    pub(crate) fn has(&self, job: &Job<'_, '_>) -> bool {
        self.kept.as_slice().iter().any(|kept| kept.is_same(job))
    }

    /// The verdict on the job; `None` where its work isn't known.
    pub(crate) fn verdict_on(&self, alloc: Global, job: &Job<'_, '_>) -> Option<Verdict>
        ensures { IsFoundOn job.now result }
    {
        for kept in self.kept.as_slice() {
            let verdict = kept.verdict_on(alloc, job);
            if verdict.is_some() {
                return verdict;
            }
        }
        None
    }

    // Keeps the job, where there is room and memory for it.
    fn keep(&mut self, alloc: Global, done: Done<'t, '_>) {
        let size = done.size();
        if self.room < size || self.kept.len() >= MOST {
            return;
        }
        if let Some(kept) = Kept::new(alloc, done) {
            if self.kept.push(kept).is_ok() {
                self.room -= size;
            }
        }
    }

    /// Keeps these jobs, as far as there is room and memory for them.
    pub(crate) fn keep_all(&mut self, alloc: Global, done: Vec<Option<Done<'t, '_>>>) {
        for one in done {
            if let Some(one) = one {
                self.keep(alloc, one);
            }
        }
    }
}
