//! Paths of files that a suite names.

ghost use Rattle.std.specs.Prelude.{◌≡◌, ◌++◌, IfOk, OnOk, List, ℕ, string_bytes};
ghost use Rattle.grade_tests.specs.Paths.{IsFolderOf, IsPlaceOf, is_rooted};

use std::alloc::{AllocError, Global};

// Whether the path begins with `/`.
fn is_rooted(path: &str) -> bool
    ensures { result ≡ is_rooted path.now }
{
    match path.as_bytes() {
        [] => false,
        [first, ..] => *first == b'/',
    }
}

// Adds the folder of the suite's path, with its `/`, if it has one.
fn push_folder(suite: &str, joined: &mut String) -> Result<(), AllocError>
    ensures { OnOk result ((folder : List ℕ) × IsFolderOf suite.now folder × (string_bytes joined.new ≡ string_bytes joined.old ++ folder)) }
{
    match suite.rsplit_once('/') {
        Some((folder, _)) => {
            joined.push_str(folder)?;
            joined.push_str("/")?;
            Ok(())
        }
        None => Ok(()),
    }
}

/// The path of a file that the suite names: it begins at the suite's folder unless it begins with `/`.
pub fn path_beside(alloc: Global, suite: &str, path: &str) -> Result<String, AllocError>
    ensures { IfOk result (λ place. IsPlaceOf suite.now path.now (string_bytes place)) }
{
    let mut joined = String::new(alloc);
    if !is_rooted(path) {
        push_folder(suite, &mut joined)?;
    }
    joined.push_str(path)?;
    Ok(joined)
}
