//! A suite, and the tests that it says.

ghost use Rattle.std.specs.Prelude.{◌≡◌, ◌≢◌, ◌↔◌, Any, All, IfOk, IfErr, IsTrue, IsSome, OnOk, None, codes};
ghost use Rattle.suite_file.specs.Suites.{IsSuiteText};
ghost use Rattle.grade_tests.specs.Loads.{AreTestsAt};

use crate::fault::GradeFault;
use crate::loading::load_all;
use crate::sources::Spot;
use crate::test::Loaded;
use std::alloc::Global;
use suite_file::{Suite, SuiteFault, SuiteTest, read_suite};
use xvsh_read::{Fault, Host, MAX_INPUT, read};

/// Which tests are asked for: those of the suite at a path.
#[derive(Clone, Copy, Debug)]
pub struct Asked<'a> {
    /// The path of the suite; `-` is standard input.
    pub suite: &'a str,
    /// Whether there are scripts on which the tests without a script of their own are run.
    pub has_scripts: bool,
    /// The most states through which orders are tried, whatever the suite says.
    pub states: Option<u64>,
}

// The suite of this text.
fn suite_of<'a>(alloc: Global, path: &'a str, text: &[u8]) -> Result<Suite, GradeFault<'a>>
    ensures { IfOk result (λ suite. IsSuiteText text.now suite.tests.items) }
{
    match read_suite(alloc, text) {
        Ok(suite) => Ok(suite),
        Err(SuiteFault::At { line, sentence }) => Err(GradeFault::Suite(path, line, sentence)),
        Err(SuiteFault::Memory) => Err(GradeFault::Common(Fault::Memory)),
    }
}

const NO_SCRIPT: &str = "the test has no script of its own, and none is given";

// Refuses scripts that no test is run on, and tests that are run on none.
fn refuse_unfit<'a>(
    spot: &Spot<'a, '_>,
    asked: &Asked<'a>,
    tests: &[SuiteTest],
) -> Result<(), GradeFault<'a>> {
    match tests.iter().position(|test| test.given.script.is_none()) {
        None if !asked.has_scripts => Ok(()),
        None => Err(GradeFault::Unused(asked.suite)),
        Some(_) if asked.has_scripts => Ok(()),
        Some(at) => {
            let test = Spot {
                test: at.saturating_add(1),
                ..*spot
            };
            Err(test.fault("", "", String::from_str(spot.alloc, NO_SCRIPT)?))
        }
    }
}

/// The tests of the suite at the path, each with all bytes that it names, in order.
///
/// A fault where the suite can't be read or is wrong, names what can't be read, or has no test for the scripts; or where it has a test
/// without a script of its own, and there are no scripts; or where memory is refused.
pub fn read_tests<'a, H: Host>(
    alloc: Global,
    asked: &Asked<'a>,
    host: &mut H,
) -> Result<Vec<Loaded>, GradeFault<'a>>
    ensures tests { IfOk result (λ tests. AreTestsAt (H.file host.old) asked.now.suite.now (H.input host.old) asked.now.states tests.items) }
    ensures files_stay { H.file host.new ≡ H.file host.old }
    ensures input_stays { asked.now.suite.now ≢ codes "-" → H.input host.new ≡ H.input host.old }
{
    let text = read(alloc, host, asked.suite, MAX_INPUT)?;
    let spot = Spot {
        alloc,
        suite: asked.suite,
        text: text.as_slice(),
        test: 0,
    };
    let suite = suite_of(alloc, asked.suite, spot.text)?;
    refuse_unfit(&spot, asked, suite.tests.as_slice())?;
    load_all(&spot, host, suite.tests.as_slice(), asked.states)
}
