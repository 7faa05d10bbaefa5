//! Scripts, read and judged a batch at a time.

ghost use Rattle.std.specs.Prelude.{◌≡◌, ◌<◌, ◌∷◌, ◌++◌, [], IfOk, IfSome, List, None, MatchOption, OnOk, Some, map, length};
ghost use Rattle.std.specs.List.{AllZip};
ghost use Rattle.xvsh_read.specs.Reading.{Agree, max_input, told_at};
ghost use Rattle.grade_tests.specs.declared.test.Loaded.{Loaded};
ghost use Rattle.xvsh_grades.specs.Jobs.{ArePieces, Holds, IsPieceOf, read_of};
ghost use Rattle.xvsh_grades.specs.Marks.{AreMarks, IsReadAt, IsTooLong, ScriptRead};
ghost use Rattle.xvsh_grades.specs.declared.marks.Mark.{Mark};
ghost use Rattle.xvsh_grades.specs.declared.marks.Piece.{Piece};

use crate::marks::{Mark, Piece, mark_all};
use crate::plan::Plan;
use crate::request::Grading;
use grade_jobs::Known;
use grade_tests::{GradeFault, Loaded};
use grade_verdicts::Verdict;
use std::alloc::{AllocError, Global};
use std::sync::Wait;
use std::thread::Threads;
use std::time::Clock;
use xvsh_read::{Fault, Host, MAX_INPUT, read};

// How many verdicts are found between two reads.
const BATCH: usize = 256;

// After how many bytes of scripts the batch is judged.
const BATCH_BYTES: usize = 16_777_216;

/// A script that was read.
#[derive(Drop)]
pub struct Script<'a> {
    pub path: &'a str,
    pub bytes: Vec<u8>,
}

/// The scripts that wait to be judged, and what was found before.
#[derive(Drop)]
pub struct Book<'t, 'a> {
    pub marks: Vec<Mark<'t, 'a>>,
    pub waiting: Vec<Script<'a>>,
    /// What was judged, so that the same isn't judged again.
    pub known: Known<'t>,
    /// How many bytes more may wait.
    pub room: usize,
}

// The bytes of the script at the path; `None` where there are too many.
fn script_at<'a, H: Host>(
    alloc: Global,
    host: &mut H,
    path: &'a str,
) -> Result<Option<Vec<u8>>, Fault<'a>>
    ensures read { IfOk result (λ read. MatchOption read (IfSome (told_at None (H.file host.old) path.now) (λ bytes. max_input < length bytes))
        (λ bytes. Agree (told_at None (H.file host.old) path.now) bytes.items)) }
    ensures stays { H.file host.new ≡ H.file host.old }
{
    match read(alloc, host, path, MAX_INPUT) {
        Ok(bytes) => Ok(Some(bytes)),
        Err(Fault::TooLong(_)) => Ok(None),
        Err(fault) => Err(fault),
    }
}

// Adds the pieces of a script.
fn add_pieces<'t, 'a, 'b>(
    tests: &[&'t Loaded],
    script: &'b Script<'a>,
    pieces: &mut Vec<Piece<'t, 'a, 'b>>,
) -> Result<(), AllocError>
    ensures { OnOk result ((more : List Piece) × (pieces.new.items ≡ pieces.old.items ++ more)
        × AllZip (IsPieceOf (Some script.now.path.now) script.now.bytes.items) (map (λ test. test.now) tests.now) more) }
{
    for test in tests {
        pieces.push(Piece {
            script: Some(script.path),
            test: *test,
            bytes: script.bytes.as_slice(),
        })?;
    }
    Ok(())
}

// The pieces of scripts, in their order.
fn pieces_of<'t, 'a, 'b>(
    plan: &Plan<'t, '_>,
    scripts: &'b [Script<'a>],
) -> Result<Vec<Piece<'t, 'a, 'b>>, AllocError>
    ensures { IfOk result (λ pieces. ArePieces (map (λ test. test.now) plan.now.tests.now) scripts.now pieces.items) }
{
    let mut pieces = Vec::new(plan.alloc);
    for script in scripts {
        add_pieces(plan.tests, script, &mut pieces)?;
    }
    Ok(pieces)
}

// Judges the scripts, and adds what was found.
fn judge_scripts<'t, 'a, R: Threads + Wait + Clock + Sync>(
    rt: &R,
    plan: &Plan<'t, '_>,
    scripts: &[Script<'a>],
    known: &mut Known<'t>,
    marks: &mut Vec<Mark<'t, 'a>>,
) -> Result<(), AllocError>
    ensures { OnOk result ((own : List Loaded) (reads : List ScriptRead) → AreMarks own (map (λ test. test.now) plan.now.tests.now) reads marks.old.items
        → AreMarks own (map (λ test. test.now) plan.now.tests.now) (reads ++ map read_of scripts.now) marks.new.items) }
{
    let pieces = pieces_of(plan, scripts)?;
    mark_all(rt, plan, pieces.as_slice(), known, marks)?;
    Ok(())
}

// Adds the verdicts on a script of too many bytes.
fn add_too_large<'t, 'a>(
    tests: &[&'t Loaded],
    path: &'a str,
    marks: &mut Vec<Mark<'t, 'a>>,
) -> Result<(), AllocError>
    ensures { OnOk result ((more : List Mark) × (marks.new.items ≡ marks.old.items ++ more) × AllZip (IsTooLong path.now) (map (λ test. test.now) tests.now) more) }
{
    for test in tests {
        marks.push(Mark {
            script: Some(path),
            test: *test,
            verdict: Some(Verdict::TooLarge),
        })?;
    }
    Ok(())
}

// Shows the host how far it is, where a script was judged.
fn tell<H: Grading>(host: &mut H, scripts: usize, done: usize, of: usize)
    ensures { H.file host.new ≡ H.file host.old }
{
    if scripts > 0 {
        host.graded(done, of);
    }
}

impl<'t, 'a> Book<'t, 'a> {
    /// Nothing was found yet.
    pub(crate) fn new(alloc: Global) -> Book<'t, 'a>
        ensures marks { result.marks.items ≡ [] }
        ensures waiting { result.waiting.items ≡ [] }
    {
        Book {
            marks: Vec::new(alloc),
            waiting: Vec::new(alloc),
            known: Known::new(alloc),
            room: BATCH_BYTES,
        }
    }

    // Whether the scripts that wait are enough.
    fn is_full(&self, plan: &Plan<'t, '_>) -> bool {
        self.room == 0 || self.waiting.len().saturating_mul(plan.tests.len()) >= BATCH
    }

    // Judges the scripts that wait, and shows the host how far it is.
    fn judge_waiting<R: Threads + Wait + Clock + Sync, H: Grading>(
        &mut self,
        rt: &R,
        plan: &Plan<'t, '_>,
        host: &mut H,
    ) -> Result<(), AllocError>
        ensures holds { OnOk result ((own : List Loaded) (reads : List ScriptRead) → Holds own (map (λ test. test.now) plan.now.tests.now) reads self.old
            → AreMarks own (map (λ test. test.now) plan.now.tests.now) reads self.new.marks.items) }
        ensures empty { OnOk result (self.new.waiting.items ≡ []) }
        ensures stays { H.file host.new ≡ H.file host.old }
    {
        judge_scripts(
            rt,
            plan,
            self.waiting.as_slice(),
            &mut self.known,
            &mut self.marks,
        )?;
        tell(host, self.waiting.len(), self.marks.len(), plan.of);
        self.waiting.clear();
        self.room = BATCH_BYTES;
        Ok(())
    }

    // Judges those that wait, and adds the verdicts on a script of too many bytes.
    fn take_too_large<R: Threads + Wait + Clock + Sync, H: Grading>(
        &mut self,
        rt: &R,
        plan: &Plan<'t, '_>,
        host: &mut H,
        path: &'a str,
    ) -> Result<(), AllocError>
        ensures holds { OnOk result ((own : List Loaded) (reads : List ScriptRead) → Holds own (map (λ test. test.now) plan.now.tests.now) reads self.old
            → Holds own (map (λ test. test.now) plan.now.tests.now) (reads ++ record { path = path.now; bytes = None } ∷ []) self.new) }
        ensures stays { H.file host.new ≡ H.file host.old }
    {
        self.judge_waiting(rt, plan, host)?;
        add_too_large(plan.tests, path, &mut self.marks)?;
        host.graded(self.marks.len(), plan.of);
        Ok(())
    }

    // Lets a script wait.
    fn add_waiting(&mut self, script: Script<'a>) -> Result<(), AllocError>
        ensures { OnOk result ((own : List Loaded) (others : List Loaded) (reads : List ScriptRead) → Holds own others reads self.old → Holds own others (reads ++ read_of script.entry ∷ []) self.new) }
    {
        self.room = self.room.saturating_sub(script.bytes.len());
        self.waiting.push(script)?;
        Ok(())
    }

    // Lets a script wait, and judges those that wait if they are enough.
    fn take_script<R: Threads + Wait + Clock + Sync, H: Grading>(
        &mut self,
        rt: &R,
        plan: &Plan<'t, '_>,
        host: &mut H,
        script: Script<'a>,
    ) -> Result<(), AllocError>
        ensures holds { OnOk result ((own : List Loaded) (reads : List ScriptRead) → Holds own (map (λ test. test.now) plan.now.tests.now) reads self.old
            → Holds own (map (λ test. test.now) plan.now.tests.now) (reads ++ read_of script.entry ∷ []) self.new) }
        ensures stays { H.file host.new ≡ H.file host.old }
    {
        self.add_waiting(script)?;
        if !self.is_full(plan) {
            return Ok(());
        }
        self.judge_waiting(rt, plan, host)?;
        Ok(())
    }

    // Reads the script at the path.
    fn take<R: Threads + Wait + Clock + Sync, H: Grading>(
        &mut self,
        rt: &R,
        plan: &Plan<'t, '_>,
        host: &mut H,
        path: &'a str,
    ) -> Result<(), GradeFault<'a>>
        ensures holds { OnOk result ((read : ScriptRead) × IsReadAt (told_at None (H.file host.old)) path.entry read × ((own : List Loaded) (reads : List ScriptRead)
            → Holds own (map (λ test. test.now) plan.now.tests.now) reads self.old → Holds own (map (λ test. test.now) plan.now.tests.now) (reads ++ read ∷ []) self.new)) }
        ensures stays { H.file host.new ≡ H.file host.old }
    {
        match script_at(plan.alloc, host, path)? {
            None => {
                self.take_too_large(rt, plan, host, path)?;
                Ok(())
            }
            Some(bytes) => {
                self.take_script(rt, plan, host, Script { path, bytes })?;
                Ok(())
            }
        }
    }

    /// Judges the scripts at the paths, in order.
    pub(crate) fn take_all<R: Threads + Wait + Clock + Sync, H: Grading>(
        &mut self,
        rt: &R,
        plan: &Plan<'t, '_>,
        host: &mut H,
        paths: &[&'a str],
    ) -> Result<(), GradeFault<'a>>
        ensures holds { OnOk result ((reads : List ScriptRead) × AllZip (IsReadAt (told_at None (H.file host.old))) paths.now reads × ((own : List Loaded)
            → Holds own (map (λ test. test.now) plan.now.tests.now) [] self.old → AreMarks own (map (λ test. test.now) plan.now.tests.now) reads self.new.marks.items)) }
    {
        for path in paths {
            self.take(rt, plan, host, *path)?;
        }
        self.judge_waiting(rt, plan, host)?;
        Ok(())
    }
}
