//! Which names files can have.

ghost use Rattle.std.specs.Prelude.{◌≡◌};
ghost use Rattle.std.specs.List.{list_all};
ghost use Rattle.mem_files.specs.Name.{is_name_byte, is_openable};

// Whether a name may have this byte.
fn is_name_byte(byte: u8) -> bool
    ensures { result ≡ is_name_byte byte }
{
    byte != b'/' && byte != 0
}

// Whether a name may have each of these bytes.
fn are_name_bytes(bytes: &[u8]) -> bool
    ensures { result ≡ list_all is_name_byte bytes.now }
{
    bytes.iter().all(|byte| is_name_byte(*byte))
}

/// Whether a file can have this name: 1 to 14 bytes, none of them `/` or 0. 14 is `kernel/fs.h`'s
/// `DIRSIZ`; that longer names are refused, and not cut off, is own.
pub fn is_openable(name: &[u8]) -> bool
    ensures { result ≡ is_openable name.now }
{
    1 <= name.len() && name.len() <= 14 && are_name_bytes(name)
}
