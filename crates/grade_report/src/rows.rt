//! What a report is made of.

ghost use Rattle.std.specs.Prelude.{◌≡◌, count_by, is_none, sum_by};
ghost use Rattle.std.specs.Option.{option_copied};
ghost use Rattle.grade_report.specs.Sums.{IsSumOf, capped, earned, is_pass};

use grade_verdicts::{Verdict, passes};

/// What a test says of a script (own).
#[derive(Clone, Copy)]
pub struct Row<'r> {
    /// The script's path; `None` where the test has its own.
    pub script: Option<&'r str>,
    pub test: &'r str,
    /// The points that the test gives where it is passed.
    pub points: u64,
    /// `None` where memory was refused to it, so that it isn't judged.
    pub verdict: Option<&'r Verdict>,
}

/// Points and tests, counted (own).
#[derive(Clone, Copy, Debug, PartialEq, Eq)]
pub struct Sum {
    pub points: u64,
    /// Of so many.
    pub of: u64,
    pub passed: usize,
    pub tests: usize,
    /// How many aren't judged.
    pub unjudged: usize,
}

impl<'r> Row<'r> {
    /// Whether its test is passed.
    pub fn is_passed(&self) -> bool
        ensures { result ≡ is_pass (option_copied self.now.verdict) }
    {
        match self.verdict {
            Some(verdict) => passes(verdict),
            None => false,
        }
    }

    /// The points that it gives.
    pub fn earned(&self) -> u64
        ensures { result ≡ earned self.now }
    {
        if self.is_passed() { self.points } else { 0 }
    }
}

// The points that the rows give.
fn points_of(rows: &[Row<'_>]) -> u64
    ensures { result ≡ capped (sum_by earned rows.now) }
{
    let mut points: u64 = 0;
    for row in rows {
        points = points.saturating_add(row.earned());
    }
    points
}

// The points that they could give.
fn most_of(rows: &[Row<'_>]) -> u64
    ensures { result ≡ capped (sum_by (λ row. row.points) rows.now) }
{
    let mut points: u64 = 0;
    for row in rows {
        points = points.saturating_add(row.points);
    }
    points
}

// How many of them pass.
fn passed_of(rows: &[Row<'_>]) -> usize
    ensures { result ≡ count_by (λ row. is_pass (option_copied row.verdict)) rows.now }
{
    rows.iter().filter(|row| row.is_passed()).count()
}

// How many of them have no verdict.
fn unjudged_of(rows: &[Row<'_>]) -> usize
    ensures { result ≡ count_by (λ row. is_none row.verdict) rows.now }
{
    rows.iter().filter(|row| row.verdict.is_none()).count()
}

/// The sum of the rows (own).
pub fn sum_of(rows: &[Row<'_>]) -> Sum
    ensures { IsSumOf rows.now result }
{
    Sum {
        points: points_of(rows),
        of: most_of(rows),
        passed: passed_of(rows),
        tests: rows.len(),
        unjudged: unjudged_of(rows),
    }
}

/// Where the rows of a script end that begin at `from`, from 0; the number of rows where none is there.
pub fn script_end(rows: &[Row<'_>], from: usize) -> usize {
    let Some(first) = rows.get(from) else {
        return rows.len();
    };
    let mut end = from;
    for row in rows.get(from..).unwrap_or(&[]) {
        if row.script != first.script {
            break;
        }
        end = end.saturating_add(1);
    }
    end
}

/// How many scripts have rows that follow each other.
pub fn scripts_of(rows: &[Row<'_>]) -> usize {
    let mut count: usize = 0;
    let mut last = None;
    for row in rows {
        if last != Some(row.script) {
            count = count.saturating_add(1);
        }
        last = Some(row.script);
    }
    count
}
