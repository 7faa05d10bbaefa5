//! Bytes that are handed to the caller.
ghost use Rattle.std.specs.Prelude.{◌≡◌};

use embed::FileSizes;

/// Hands bytes to the caller, who frees them where there are any.
pub fn given_out(bytes: Vec<u8>) -> &'static [u8]
    ensures { result.now ≡ bytes.items }
{
    if bytes.is_empty() { &[] } else { bytes.leak() }
}

/// Hands a table to the caller, who frees it where it has a row.
pub fn table_out(rows: Vec<FileSizes>) -> &'static [FileSizes]
    ensures { result.now ≡ rows.items }
{
    if rows.is_empty() { &[] } else { rows.leak() }
}
