//! Verdicts.

ghost use Rattle.std.specs.Prelude.{◌↔◌, IsTrue};
ghost use Rattle.grade_verdicts.specs.Judged.{IsPass};

use kernel_model::Full;
use script_load::LoadFault;
use script_notes::NoteKind;

/// Where what a run left isn't what is expected (own).
#[derive(Debug, Drop)]
pub enum Place {
    /// In the standard output.
    Output,
    /// In the file of this name.
    File(Vec<u8>),
    /// The file of this name isn't there.
    NoFile(Vec<u8>),
}

/// How what a run left differs from what is expected (own): at the first byte that does.
#[derive(Debug, Drop)]
pub struct Difference {
    pub place: Place,
    /// The line that differs, counted from 1.
    pub line: usize,
    /// The byte of that line, counted from 0.
    pub byte: usize,
    /// The byte of that line, counted from 0, with which what is shown of it begins.
    pub from: usize,
    /// What is expected there, with its LF if it has one, but of a long line only a part; `None` where no more is.
    pub expected: Option<Vec<u8>>,
    /// What is there, as much of it; `None` where no more is.
    pub found: Option<Vec<u8>>,
}

/// Two outcomes of one script, of which one is expected and the other isn't (own). Each schedule is the processes, by their
/// slots, in the order of their turns: each is given to hart 0, and at once makes its call.
#[derive(Debug, Drop)]
pub struct Race {
    /// A schedule that leads to what is expected.
    pub right: Vec<u8>,
    /// One that leads to what isn't.
    pub wrong: Vec<u8>,
    /// How that differs.
    pub difference: Difference,
}

/// Why a script is refused (own).
#[derive(Clone, Copy, Debug)]
pub enum Refusal {
    /// It can't be read.
    Script(LoadFault),
    /// It doesn't do what is expected, and this line, counted from 1, is its first that is no command, for this reason.
    Line(usize, NoteKind),
}

/// What a test says of a script (own).
#[derive(Debug, Drop)]
pub enum Verdict {
    /// The script is settled, its meaning is what is expected, and a run of it has room.
    Pass,
    /// Every order of its processes was tried, what each leaves is what is expected, and one has room.
    PassEveryOrder,
    /// It leaves something else, in every order.
    Wrong(Difference),
    /// It leaves something else in each order that was tried, and not every order was tried.
    WrongSoFar(Difference),
    /// In some order it leaves what is expected, and in some other it doesn't.
    Race(Race),
    /// It isn't settled, or a file that is expected is soft, and not every order was tried; so many different ends of runs were found,
    /// each of which leaves what is expected.
    Unsure(usize),
    /// It is no script, or leaves something else and has a line that is no command.
    Refused(Refusal),
    /// It is too long, or one of its files would be too large, or one too many.
    TooLarge,
    /// It would leave what is expected, but has no room: this was full in a run on one hart, in the kernel's order.
    NoRoom(Full),
    /// A run took as many events as the test allows, and wasn't finished; or in some order all its processes sleep, and it never is.
    Spent,
}

/// Whether the verdict gives the test's points (own).
pub fn passes(verdict: &Verdict) -> bool
    ensures { IsTrue result ↔ IsPass verdict.now }
{
    matches!(verdict, Verdict::Pass | Verdict::PassEveryOrder)
}
