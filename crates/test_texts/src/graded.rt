//! What is graded, and what is reported to the host.

use crate::host::{LONG, SUITE, SuiteHost};
use std::alloc::{AllocError, Global};
use std::sync::Wait;
use std::test::Fail;
use std::thread::Threads;
use std::time::Clock;
use xvsh_grades::{Form, GradeFault, GradeRequest, Report, grade};

// What a grading came to: the status, and the report or the sentence of the fault.
#[derive(Drop)]
struct Graded {
    status: u8,
    text: Vec<u8>,
    steps: String,
}

fn ended(
    alloc: Global,
    graded: Result<Report, GradeFault<'_>>,
) -> Result<(u8, Vec<u8>), AllocError> {
    match graded {
        Ok(report) => Ok((if report.has_passed { 0 } else { 3 }, report.text)),
        Err(fault) => {
            let sentence = format!(in alloc; "{fault}")?;
            Ok((
                fault.status().code(),
                Vec::from_slice(alloc, sentence.as_bytes())?,
            ))
        }
    }
}

// Grades these scripts by a suite, in colour, on a host without memory for one path.
fn grade_on(
    rt: &(impl Threads + Wait + Clock + Sync + AllocGlobal),
    suite: &str,
    refused: &str,
    scripts: &[&str],
) -> Result<Graded, AllocError> {
    let alloc = rt.alloc();
    let request = GradeRequest {
        suite: SUITE,
        scripts,
        form: Form::Table,
        threads: 4,
        states: None,
        is_coloured: true,
    };
    let mut host = SuiteHost {
        suite,
        refused,
        steps: String::new(alloc),
    };
    let (status, text) = ended(alloc, grade(rt, alloc, &request, &mut host))?;
    Ok(Graded {
        status,
        text,
        steps: host.steps,
    })
}

const ONE: &str = "[[test]]\nname = \"t\"\noutput = \"a\\n\"\n";

const TWO: &str = "[[test]]
name = \"good\"
points = 2
output = \"a\\n\"
[[test]]
name = \"bad\"
points = 4
output = \"it's\\n\"
";

#[test]
fn a_table_is_in_colour(rt: HostRuntime) -> Result<(), Fail> {
    let graded = grade_on(&rt, TWO, "", &["\x1b[31m x.sh"])?;
    let table =
        "\\x1b[31m x.sh: 1 of 2 tests passed, 2 of 6 points\n  \x1b[32mpass\x1b[0m                     2/2      good\n  \x1b[31mwrong\x1b[0m                    0/4      bad\n      output, line 1: expected `it's\\n`, found `a\\n`\n";
    assert!(&rt; graded.status == 3 && graded.text.as_slice() == table.as_bytes());
    Ok(())
}

// A suite whose test has an input in a file.
const FED: &str = "[[test]]
name = \"t\"
script = \"echo a\"
output = \"a\\n\"
input_file = \"in\"
";

#[test]
fn memory_that_is_refused_ends_it(rt: HostRuntime) -> Result<(), Fail> {
    let script = grade_on(&rt, ONE, "x.sh", &["x.sh"])?;
    assert!(&rt; script.status == 4 && script.text.as_slice() == b"no memory".as_slice());
    let input = grade_on(&rt, FED, "in", &[])?;
    assert!(&rt; input.status == 4 && input.text.as_slice() == b"no memory".as_slice());
    Ok(())
}

// Grades so many scripts by a suite.
fn grade_many(
    rt: &(impl Threads + Wait + Clock + Sync + AllocGlobal),
    suite: &str,
    count: usize,
) -> Result<Graded, AllocError> {
    let alloc = rt.alloc();
    let mut paths = Vec::new(alloc);
    for i in 0..count {
        paths.push(format!(in alloc; "each/{i}")?)?;
    }
    let scripts = paths
        .iter()
        .map(|path| path.as_str())
        .collect::<Vec<&str>>(alloc)?;
    grade_on(rt, suite, "", scripts.as_slice())
}

// A suite of which one test has a script of its own.
const OWN: &str = "[[test]]
name = \"theirs\"
output = \"a\\n\"
[[test]]
name = \"own\"
script = \"echo b\"
output = \"b\\n\"
";

// A suite of so many tests, each with a script of its own.
fn own_tests(alloc: Global, count: usize) -> Result<String, AllocError> {
    let mut suite = String::new(alloc);
    for i in 0..count {
        let test = format!(in alloc;
            "[[test]]\nname = \"{i}\"\nscript = \"echo {i}\"\noutput = \"{i}\\n\"\n"
        )?;
        suite.push_str(test.as_str())?;
    }
    Ok(suite)
}

#[test]
fn each_batch_is_reported(rt: HostRuntime) -> Result<(), Fail> {
    let rows = [
        (TWO, 2, "4/4 "),
        (OWN, 1, "1/2 2/2 "),
        (ONE, 200, "200/200 "),
        (ONE, 300, "256/300 300/300 "),
    ];
    for (suite, count, steps) in rows {
        let graded = grade_many(&rt, suite, count)?;
        assert_eq!(&rt; graded.steps.as_str(), steps);
    }
    let own = own_tests(rt.alloc(), 300)?;
    let graded = grade_many(&rt, own.as_str(), 0)?;
    assert_eq!(&rt; graded.steps.as_str(), "256/300 300/300 ");
    let cut = grade_on(&rt, ONE, "", &["x.sh", LONG, "z.sh"])?;
    assert_eq!(&rt; cut.steps.as_str(), "1/3 2/3 3/3 ");
    Ok(())
}

#[test]
fn scripts_of_three_batches_are_graded(rt: HostRuntime) -> Result<(), Fail> {
    let graded = grade_many(&rt, ONE, 600)?;
    assert_eq!(&rt; graded.steps.as_str(), "256/600 512/600 600/600 ");
    let text = graded.text.as_slice();
    assert!(&rt; text.split(|byte| *byte == b'\n').count() == 1202);
    assert!(&rt; text.ends_with(b"\n600 scripts: 600 of 600 tests passed, 600 of 600 points\n"));
    Ok(())
}
