//! A test from its table.

ghost use Rattle.std.specs.Prelude.{◌≡◌, ◌≢◌, ℕ, List, [], IfErr, IfOk, Some, codes, string_bytes};
ghost use Rattle.toml.specs.Data.{get_member, string};
ghost use Rattle.toml.specs.View.{table_view};
ghost use Rattle.suite_file.specs.Entries.{IsSource, IsSourceOrEmpty};
ghost use Rattle.suite_file.specs.Faults.{IsAt};
ghost use Rattle.suite_file.specs.Suites.{AreLimits, IsGiven, IsTest, IsWanted};
ghost use Rattle.suite_file.specs.declared.suite.Given.{Given};
ghost use Rattle.suite_file.specs.declared.suite.Limits.{Limits};
ghost use Rattle.suite_file.specs.declared.suite.Source.{Source};
ghost use Rattle.suite_file.specs.declared.suite.SuiteTest.{SuiteTest};
ghost use Rattle.suite_file.specs.declared.suite.Wanted.{Wanted};

use crate::fault::SuiteFault;
use crate::keys::of_test;
use crate::part::Part;
use crate::suite::{
    Given, Limits, MOST_BYTES, MOST_POINTS, MOST_STATES, MOST_TURNS, Source, SuiteTest, Wanted,
};

/// The limits that a table says; each of which it says nothing is that of the others.
pub fn limits_of(part: &Part<'_>, others: Limits) -> Result<Limits, SuiteFault>
    ensures ok { IfOk result (AreLimits (table_view part.now.table.now) others) }
    ensures refused { IfErr result (λ fault. IsAt fault → (limits : Limits) → ¬ AreLimits (table_view part.now.table.now) others limits) }
{
    let appends = part.truth_at("append", others.appends)?;
    let bytes = part.number_at("bytes", 1, MOST_BYTES as u64, others.bytes as u64)?;
    let states = part.number_at("states", 1, MOST_STATES as u64, others.states as u64)?;
    let turns = part.number_at("turns", 1, MOST_TURNS, others.turns)?;
    let every_way = part.truth_at("every_way", others.every_way)?;
    Ok(Limits {
        appends,
        bytes: bytes as usize,
        states: states as usize,
        turns,
        every_way,
    })
}

// The name of the test.
fn name_of<'t>(part: &Part<'t>) -> Result<&'t str, SuiteFault>
    ensures name { IfOk result (λ name. get_member (codes "name") (table_view part.now.table.now) ≡ Some (string name.now)) }
    ensures named { IfOk result (λ name. name.now ≢ []) }
    ensures refused { IfErr result (λ fault. IsAt fault → (name : List ℕ) → get_member (codes "name") (table_view part.now.table.now) ≡ Some (string name) → name ≡ []) }
{
    match part.text_at("name")? {
        Some("") => Err(part.key_fault("", "name", "is empty")),
        Some(name) => Ok(name),
        None => Err(part.fault("", "", "the test has no `name`")),
    }
}

// The standard input.
fn input_of(part: &Part<'_>) -> Result<Source, SuiteFault>
    ensures ok { IfOk result (IsSourceOrEmpty (get_member (codes "input") (table_view part.now.table.now)) (get_member (codes "input_file") (table_view part.now.table.now))) }
    ensures refused { IfErr result (λ fault. IsAt fault → (input : Source) → ¬ IsSourceOrEmpty (get_member (codes "input") (table_view part.now.table.now)) (get_member (codes "input_file") (table_view part.now.table.now)) input) }
{
    match part.source_at("input", "input_file") {
        Ok(Some(input)) => Ok(input),
        Ok(None) => Ok(Source::Inline(Vec::new(part.alloc))),
        Err(fault) => Err(fault),
    }
}

// The output that the test wants.
fn output_of(part: &Part<'_>) -> Result<Source, SuiteFault>
    ensures ok { IfOk result (λ output. IsSource (get_member (codes "output") (table_view part.now.table.now)) (get_member (codes "output_file") (table_view part.now.table.now)) (Some output)) }
    ensures refused { IfErr result (λ fault. IsAt fault → (output : Source) → ¬ IsSource (get_member (codes "output") (table_view part.now.table.now)) (get_member (codes "output_file") (table_view part.now.table.now)) (Some output)) }
{
    match part.source_at("output", "output_file")? {
        Some(output) => Ok(output),
        None => Err(part.fault("", "", "the test has no `output` and no `output_file`")),
    }
}

// What the test gives to a script.
fn given_of(part: &Part<'_>) -> Result<Given, SuiteFault>
    ensures ok { IfOk result (IsGiven (table_view part.now.table.now)) }
    ensures refused { IfErr result (λ fault. IsAt fault → (given : Given) → ¬ IsGiven (table_view part.now.table.now) given) }
{
    let script = part.source_at("script", "script_file")?;
    let stdin = input_of(part)?;
    let files = part.files_at("files")?;
    Ok(Given {
        script,
        stdin,
        files,
    })
}

// What the test wants of a script.
fn wanted_of(part: &Part<'_>) -> Result<Wanted, SuiteFault>
    ensures ok { IfOk result (IsWanted (table_view part.now.table.now)) }
    ensures refused { IfErr result (λ fault. IsAt fault → (wanted : Wanted) → ¬ IsWanted (table_view part.now.table.now) wanted) }
{
    let output = output_of(part)?;
    let files = part.files_at("expect")?;
    Ok(Wanted { output, files })
}

/// The test that the part is; each limit of which it says nothing is that of the suite.
pub fn test_of(part: &Part<'_>, suite: Limits) -> Result<SuiteTest, SuiteFault>
    ensures ok { IfOk result (IsTest suite (table_view part.now.table.now)) }
    ensures refused { IfErr result (λ fault. IsAt fault → (test : SuiteTest) → ¬ IsTest suite (table_view part.now.table.now) test) }
{
    part.check_keys(of_test())?;
    let text = name_of(part)?;
    let limits = limits_of(part, suite)?;
    let points = part.number_at("points", 0, MOST_POINTS, 1)?;
    let name = String::from_str(part.alloc, text)?;
    let given = given_of(part)?;
    let wanted = wanted_of(part)?;
    Ok(SuiteTest {
        name,
        points,
        limits,
        given,
        wanted,
    })
}
