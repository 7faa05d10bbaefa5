//! What is written, and how far.

ghost use Rattle.std.specs.Prelude.{◌≡◌, ◌≤◌, OnErr, OnOk, [], ◌++◌, length};
ghost use Rattle.std.specs.Io.KnownBytes.{Appends};
ghost use Rattle.xvsh_read.specs.Writing.{AppendsPart, out_text};

use sh_lexer::Bytes;
use std::alloc::Global;
use std::io::{ErrorKind, Write};

/// The writer took no more.
#[derive(Clone, Copy, Debug, PartialEq, Eq)]
pub struct Unwritten;

/// What a command writes, before it is written: to standard output first `out`, then the lists of the files and of the events,
/// and to standard error `err`.
#[derive(Drop)]
pub struct Output {
    pub out: Bytes<Global>,
    pub files: Vec<u8>,
    pub events: Vec<u8>,
    pub err: Vec<u8>,
}

/// Writes all bytes, in as many calls as it takes. `Unwritten` where the writer returns an error, or takes none: then some bytes
/// are left, and those before them were written.
pub fn write<W: Write>(to: &mut W, bytes: &[u8]) -> Result<(), Unwritten>
    ensures written { OnOk result (Appends (W.contents to.old) (W.contents to.new) bytes.now) }
    ensures part { OnErr result (AppendsPart (W.contents to.old) (W.contents to.new) bytes.now) }
    ensures nothing { bytes.now ≡ [] → to.new ≡ to.old }
{
    let mut rest = bytes;
    for call in 0..u64::MAX {
        if rest.is_empty() {
            return Ok(());
        }
        match to.write(rest) {
            Ok(0) => return Err(Unwritten),
            Ok(count) => rest = &rest[count..],
            Err(error) => {
                if error.kind() != ErrorKind::Interrupted {
                    return Err(Unwritten);
                }
            }
        }
    }
    if rest.is_empty() {
        Ok(())
    } else {
        Err(Unwritten)
    }
}

/// Writes what goes to standard output.
pub fn write_out<W: Write>(to: &mut W, output: &Output) -> Result<(), Unwritten>
    ensures written { OnOk result (Appends (W.contents to.old) (W.contents to.new) (out_text output.now)) }
    ensures part { OnErr result (AppendsPart (W.contents to.old) (W.contents to.new) (out_text output.now)) }
    ensures nothing { out_text output.now ≡ [] → to.new ≡ to.old }
{
    write(to, output.out.as_slice())?;
    write(to, output.files.as_slice())?;
    write(to, output.events.as_slice())
}
