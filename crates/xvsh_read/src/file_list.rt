//! The list of files that is printed.

ghost use Rattle.std.specs.Prelude.{◌≡◌, ◌++◌, ◌<◌, OnOk, IfOk, slice_get, Some, length};
ghost use Rattle.prog_parts.specs.NameSets.{among};
ghost use Rattle.xvsh_read.specs.Listing.{soft_mark, file_text, list_text};

use mem_files::Files;
use mem_files::laws::are_files;
use prog_parts::is_among;
use sh_lexer::Bytes;
use std::alloc::{AllocError, Global};

// Adds `-- NAME LENGTH`, the mark if the file is soft, and LF, its bytes, and LF.
fn add_text(
    alloc: Global,
    is_soft: bool,
    name: &[u8],
    bytes: &[u8],
    text: &mut Vec<u8>,
) -> Result<(), AllocError>
    ensures { OnOk result (text.new.items ≡ text.old.items ++ file_text is_soft name.now bytes.now) }
{
    let length = format!(in alloc; "{}", bytes.len())?;
    text.extend_from_slice(b"-- ".as_slice())?;
    text.extend_from_slice(name)?;
    text.push(b' ')?;
    text.extend_from_slice(length.as_bytes())?;
    text.extend_from_slice(mark(is_soft))?;
    text.push(b'\n')?;
    text.extend_from_slice(bytes)?;
    text.push(b'\n')?;
    Ok(())
}

fn mark(is_soft: bool) -> &'static [u8]
    ensures { result.now ≡ soft_mark is_soft }
{
    if is_soft { b" soft".as_slice() } else { &[] }
}

// The name and the bytes of a file by its place in byte order.
fn file_at(files: &Files<Global>, place: usize) -> (&[u8], &[u8])
    requires { place < length files.now }
    ensures { slice_get files.now place ≡ Some (result.0.now, result.1.now) }
{
    are_files(files);
    let Some(name) = files.name_at(place) else {
        return (&[], &[]);
    };
    let Some(bytes) = files.get(name) else {
        return (name, &[]);
    };
    (name, bytes)
}

/// All files in byte order of their names, each as `-- NAME LENGTH`, ` soft` if its name is a soft
/// one, and LF, its bytes, and LF.
pub fn listing(
    alloc: Global,
    files: &Files<Global>,
    soft: &[Bytes<Global>],
) -> Result<Vec<u8>, AllocError>
    ensures { IfOk result (λ text. text.items ≡ list_text (among soft.now) files.now) }
{
    let mut text = Vec::new(alloc);
    for i in 0..files.count() {
        let (name, bytes) = file_at(files, i);
        add_text(alloc, is_among(soft, name), name, bytes, &mut text)?;
    }
    Ok(text)
}
