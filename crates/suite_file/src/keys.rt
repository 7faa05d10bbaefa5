//! The keys that a suite may have.

ghost use Rattle.std.specs.Prelude.{◌≡◌, ◌↔◌, Any, IfNone, IfSome, IsTrue, map};
ghost use Rattle.toml.specs.View.{table_view};
ghost use Rattle.suite_file.specs.Entries.{HasOnlyKeys};
ghost use Rattle.suite_file.specs.Suites.{suite_keys, test_keys};

use toml::Table;

static OF_SUITE: [&str; 9] = [
    "append",
    "bytes",
    "every_way",
    "metadata",
    "seconds",
    "states",
    "test",
    "title",
    "turns",
];

static OF_TEST: [&str; 16] = [
    "append",
    "bytes",
    "every_way",
    "expect",
    "files",
    "input",
    "input_file",
    "metadata",
    "name",
    "output",
    "output_file",
    "points",
    "script",
    "script_file",
    "states",
    "turns",
];

/// The keys of a suite.
pub fn of_suite() -> &'static [&'static str]
    ensures { map (λ one. one.now) result.now ≡ suite_keys }
{
    &OF_SUITE
}

/// The keys of a test.
pub fn of_test() -> &'static [&'static str]
    ensures { map (λ one. one.now) result.now ≡ test_keys }
{
    &OF_TEST
}

// Whether the key is one of these.
fn is_known(known: &[&str], key: &str) -> bool
    ensures { IsTrue result ↔ Any (λ one. one.now ≡ key.now) known.now }
{
    known.iter().any(|one| *one == key)
}

/// The first key of the table, in byte order, that is none of these.
pub fn unknown<'t>(table: &'t Table, known: &[&str]) -> Option<&'t str>
    ensures none { IfNone result (HasOnlyKeys (map (λ one. one.now) known.now) (table_view table.now)) }
    ensures some { IfSome result (λ _. ¬ HasOnlyKeys (map (λ one. one.now) known.now) (table_view table.now)) }
{
    for (key, _) in table {
        if !is_known(known, key.as_str()) {
            return Some(key.as_str());
        }
    }
    None
}
