//! A suite from its text.

ghost use Rattle.std.specs.Prelude.{◌≡◌, ◌≢◌, ◌∷◌, ◌++◌, ◌↔◌, [], All, IfErr, IfOk, IsTrue, List, None, IsUtf8, OnOk, Some, codes, string_bytes};
ghost use Rattle.toml.specs.Data.{Items, array, get_member};
ghost use Rattle.toml.specs.Errors.{IsMemory};
ghost use Rattle.toml.specs.Parse.{parse_document};
ghost use Rattle.toml.specs.View.{items_view, table_view};
ghost use Rattle.suite_file.specs.Faults.{IsAt};
ghost use Rattle.suite_file.specs.declared.suite.SuiteTest.{SuiteTest};
ghost use Rattle.suite_file.specs.Suites.{AreTests, AreTestsOf, HaveOwnNames, IsSuiteText};

use crate::fault::SuiteFault;
use crate::keys::of_suite;
use crate::part::Part;
use crate::suite::{Limits, MOST_BYTES, MOST_SECONDS, STATES, Suite, SuiteTest};
use crate::test_tables::{limits_of, test_of};
use std::alloc::Global;
use toml::de::Error;
use toml::{Table, Value};

// Whether the test has this name.
fn is_named(test: &SuiteTest, name: &str) -> bool
    ensures { IsTrue result ↔ (string_bytes test.now.name ≡ name.now) }
{
    test.name.as_str() == name
}

// Whether no test has it.
fn is_new(tests: &[SuiteTest], name: &str) -> bool
    ensures { IsTrue result ↔ All (λ test. string_bytes test.name ≢ name.now) tests.now }
{
    tests.iter().all(|test| !is_named(test, name))
}

// The number of the test that has it, counted from 1; 0 where there is none.
fn number_named(tests: &[SuiteTest], name: &str) -> usize {
    match tests.iter().position(|test| is_named(test, name)) {
        Some(at) => at.saturating_add(1),
        None => 0,
    }
}

// The name of the test is that of one of these.
fn name_fault(part: &Part<'_>, tests: &[SuiteTest], name: &str) -> SuiteFault {
    let first = Part {
        test: number_named(tests, name),
        ..*part
    };
    let line = first.line("", "");
    match format!(in part.alloc; "is that of the test of line {line} too") {
        Ok(what) => part.key_fault("", "name", what.as_str()),
        Err(_) => SuiteFault::Memory,
    }
}

// Adds the test, whose name no other has.
fn add(part: &Part<'_>, tests: &mut Vec<SuiteTest>, test: SuiteTest) -> Result<(), SuiteFault>
    requires { HaveOwnNames tests.old.items }
    ensures items { OnOk result (tests.new.items ≡ tests.old.items ++ test ∷ []) }
    ensures names { OnOk result (HaveOwnNames tests.new.items) }
    ensures refused { IfErr result (λ fault. IsAt fault → ¬ All (λ other. string_bytes other.name ≢ string_bytes test.name) tests.old.items) }
{
    let name = test.name.as_str();
    if !is_new(tests.as_slice(), name) {
        return Err(name_fault(part, tests.as_slice(), name));
    }
    tests.push(test)?;
    Ok(())
}

// What stands for each test.
fn list_of<'t>(suite: &Part<'t>) -> Result<&'t [Value], SuiteFault>
    ensures ok { IfOk result (λ values. get_member (codes "test") (table_view suite.now.table.now) ≡ Some (array (items_view values.now))) }
    ensures refused { IfErr result (λ fault. IsAt fault → (items : Items) → get_member (codes "test") (table_view suite.now.table.now) ≢ Some (array items)) }
{
    let Some(value) = suite.value_at("test") else {
        return Err(suite.fault("", "", "the suite has no [[test]]"));
    };
    match value.as_array() {
        Some(values) => Ok(values.as_slice()),
        None => Err(suite.key_fault("", "test", "is no list: write [[test]]")),
    }
}

// The tests of these tables.
fn tests_of(
    suite: &Part<'_>,
    values: &[Value],
    limits: Limits,
) -> Result<Vec<SuiteTest>, SuiteFault>
    ensures each { IfOk result (λ tests. AreTests limits (items_view values.now) tests.items) }
    ensures names { IfOk result (λ tests. HaveOwnNames tests.items) }
    ensures refused { IfErr result (λ fault. IsAt fault → (tests : List SuiteTest) → AreTests limits (items_view values.now) tests → ¬ HaveOwnNames tests) }
{
    let mut tests = Vec::new(suite.alloc);
    for value in values {
        let Some(table) = value.as_table() else {
            return Err(suite.key_fault("", "test", "holds what is no table"));
        };
        let part = Part {
            table,
            test: tests.len().saturating_add(1),
            ..*suite
        };
        let test = test_of(&part, limits)?;
        add(&part, &mut tests, test)?;
    }
    Ok(tests)
}

// The line of the text at this byte.
fn line_at(text: &[u8], byte: usize) -> usize {
    let before = text.get(..byte).unwrap_or(text);
    before
        .iter()
        .filter(|byte| **byte == b'\n')
        .count()
        .saturating_add(1)
}

// Why the text is no TOML.
fn parse_fault(alloc: Global, text: &[u8], error: &Error) -> SuiteFault
    ensures { IsAt result → ¬ IsMemory error.now }
{
    let Some(span) = error.span() else {
        return SuiteFault::Memory;
    };
    match format!(in alloc; "this is no TOML: {}", error.message()) {
        Ok(sentence) => SuiteFault::At {
            line: line_at(text, span.start),
            sentence,
        },
        Err(_) => SuiteFault::Memory,
    }
}

fn table_of(alloc: Global, text: &[u8]) -> Result<Table, SuiteFault>
    ensures ok { IfOk result (λ table. IsUtf8 text.now × (parse_document text.now ≡ Some (table_view table))) }
    ensures refused { IfErr result (λ fault. IsAt fault → IsUtf8 text.now → parse_document text.now ≡ None) }
{
    match toml::table_from_slice(alloc, text) {
        Ok(table) => Ok(table),
        Err(error) => Err(parse_fault(alloc, text, &error)),
    }
}

// Whether there is no test.
fn is_nothing(tests: &[SuiteTest]) -> bool
    ensures { IsTrue result ↔ (tests.now ≡ []) }
{
    tests.is_empty()
}

// The tests of the suite that the table is.
fn suite_of(suite: &Part<'_>) -> Result<Vec<SuiteTest>, SuiteFault>
    ensures ok { IfOk result (λ tests. AreTestsOf (table_view suite.now.table.now) tests.items) }
    ensures refused { IfErr result (λ fault. IsAt fault → (tests : List SuiteTest) → ¬ AreTestsOf (table_view suite.now.table.now) tests) }
{
    suite.check_keys(of_suite())?;
    suite.text_at("title")?;
    suite.check_number("seconds", 1, MOST_SECONDS)?;
    let first = Limits {
        appends: false,
        bytes: MOST_BYTES,
        states: STATES,
        turns: 0,
        every_way: false,
    };
    let limits = limits_of(suite, first)?;
    let tests = tests_of(suite, list_of(suite)?, limits)?;
    if is_nothing(tests.as_slice()) {
        return Err(suite.fault("", "", "the suite has no [[test]]"));
    }
    Ok(tests)
}

/// The suite that the text is, in TOML (own): each test has what its table says, the limits of the suite where it says none, and a
/// name that no other has.
///
/// `At` where the text is no TOML in UTF-8, a key isn't one of those in `docs/GRADING.md` or has a value that it can't have, a
/// test lacks its `name` or its output, or two tests have one name; with the line at which that key stands, or else its table
/// begins. `Memory` where memory is refused.
pub fn read_suite(alloc: Global, text: &[u8]) -> Result<Suite, SuiteFault>
    ensures ok { IfOk result (λ suite. IsSuiteText text.now suite.tests.items) }
    ensures refused { IfErr result (λ fault. IsAt fault → (tests : List SuiteTest) → ¬ IsSuiteText text.now tests) }
{
    let table = table_of(alloc, text)?;
    let suite = Part {
        alloc,
        text,
        table: &table,
        test: 0,
    };
    let tests = suite_of(&suite)?;
    Ok(Suite { tests })
}
