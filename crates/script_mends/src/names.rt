//! Names of new files.
ghost use Rattle.std.specs.Prelude.{◌≡◌, ◌≤◌, ℕ, IfOk, MatchOption, false, true};
ghost use Rattle.mem_files.specs.Files.{files};
ghost use Rattle.script_mends.specs.Mended.{IsNew, IsTaken, last_name, new_name, occurs};

use mem_files::Files;
use std::alloc::{AllocError, Global};

// The last number of a name.
const LAST_NAME: usize = 999;

// Whether a name stands somewhere in a text.
fn occurs(name: &[u8], text: &[u8]) -> bool
    ensures { result ≡ occurs name.now text.now }
{
    let mut rest = text;
    while let Some((_byte, after)) = rest.split_first() {
        if rest.starts_with(name) {
            return true;
        }
        rest = after;
    }
    false
}

// The name of this number.
fn new_name(alloc: Global, number: usize) -> Result<Vec<u8>, AllocError>
    ensures { IfOk result (λ name. name.items ≡ new_name number) }
{
    let name = format!(in alloc; "t{number}")?;
    Ok(name.into_bytes())
}

// Whether no file has a name, and it stands nowhere in a script.
fn is_new(name: &[u8], bytes: &[u8], given: &Files<Global>) -> bool
    ensures { (result ≡ true → IsNew (files given.now) bytes.now name.now) × (result ≡ false → IsTaken (files given.now) bytes.now name.now) }
{
    !occurs(name, bytes) && given.get(name).is_none()
}

/// A name of a new file with its number, if one of those that are tried is new.
pub fn free_name(
    alloc: Global,
    bytes: &[u8],
    given: &Files<Global>,
) -> Result<Option<(usize, Vec<u8>)>, AllocError>
    ensures { IfOk result (λ found. MatchOption found
        ((number : ℕ) → 1 ≤ number → number ≤ last_name → IsTaken (files given.now) bytes.now (new_name number))
        (λ free. (free.1.items ≡ new_name free.0) × IsNew (files given.now) bytes.now (new_name free.0))) }
{
    for number in 1..LAST_NAME + 1 {
        let name = new_name(alloc, number)?;
        if is_new(name.as_slice(), bytes, given) {
            return Ok(Some((number, name)));
        }
    }
    Ok(None)
}
