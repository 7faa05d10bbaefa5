//! Why nothing is graded.
ghost use Rattle.embed.specs.Grades.{IsToldBelow};

use grade_tests::GradeFault;

/// Why nothing is graded. Lines and tests of the suite, and files of the task, are counted from 1.
#[derive(Debug, Drop)]
pub enum GradeRefusal {
    /// The suite has more than 1,048,576 bytes.
    SuiteTooLong,
    /// This line of the suite is wrong, and what is wrong with it, in words of `xvsh grade`.
    BadSuite(usize, String),
    /// Each test of the suite has a script of its own, so none is run on the task's.
    UnusedScript,
    /// This test is to run in every way, which takes threads.
    EveryWay(usize),
    /// There are 200 files before this one.
    TooManyFiles(usize),
    /// Memory was refused.
    Memory,
}

/// Why the tests of a suite can't be had, whose length was tested, and which is the standard input of a host that has it.
pub(crate) fn of_fault(fault: GradeFault<'_>) -> GradeRefusal
    ensures { IsToldBelow result }
{
    match fault {
        GradeFault::Suite(_, line, sentence) => GradeRefusal::BadSuite(line, sentence),
        GradeFault::Unused(_) => GradeRefusal::UnusedScript,
        GradeFault::Twice(_) | GradeFault::Common(_) => GradeRefusal::Memory,
    }
}
