//! What an entry can be open on.

ghost use Rattle.std.specs.Prelude.{◌≡◌, ◌≤◌, ◌↔◌, length, IsSome, IfSome};
ghost use Rattle.fd_table.specs.declared.names.TheConstants.{NAME_SIZE};

use arrayvec::ArrayVec;
use std::marker::Model;

/// How many bytes a file name has at most (xv6's `DIRSIZ`).
pub const NAME_SIZE: usize = 14;

/// A file name of at most 14 bytes (xv6's `kernel/fs.h`). Contracts see the list of the bytes.
#[derive(Debug, Drop)]
pub struct Name {
    bytes: ArrayVec<u8, NAME_SIZE>,
}

impl Model for Name {
    ghost use Rattle.std.specs.Prelude.{List, ℕ, ◌≤◌, length};
    ghost use Rattle.fd_table.specs.declared.names.TheConstants.{NAME_SIZE};

    ghost Value = { List ℕ };

    ghost view = { λ n. n.bytes.items };

    ghost invariant = { λ n. length n.bytes.items ≤ NAME_SIZE };
}

impl Name {
    /// The name of these bytes, or `None` where there are more than 14 (own: xv6 cuts a longer name off).
    ///
    /// Any bytes are accepted: which names a file can have, the set of files checks.
    pub fn new(bytes: &[u8]) -> Option<Self>
        ensures fits { IsSome result ↔ (length bytes.now ≤ NAME_SIZE) }
        ensures value { IfSome result (λ name. name ≡ bytes.now) }
    {
        let bytes = ArrayVec::try_from(bytes).ok()?;
        Some(Name { bytes })
    }

    // An equal name.
    fn twin(&self) -> Name
        ensures { result ≡ self.now }
    {
        let mut bytes = ArrayVec::new();
        bytes.try_extend_from_slice(self.bytes.as_slice()).unwrap();
        Name { bytes }
    }

    /// The bytes of the name, borrowed (own).
    pub fn as_slice(&self) -> &[u8]
        ensures bytes { result.now ≡ self.now }
        ensures fits { length self.now ≤ NAME_SIZE }
    {
        self.bytes.as_slice()
    }
}

/// How a file was opened (xv6's `O_RDONLY`, `O_WRONLY | O_CREATE | O_TRUNC` and `O_WRONLY | O_CREATE`; the last is own:
/// a file opened by `>>` in the profile in which `>>` appends).
#[derive(Clone, Copy, Debug, PartialEq, Eq)]
pub enum Mode {
    /// For reading.
    Input,
    /// For writing, from an empty file on.
    Fresh,
    /// For writing, over the bytes that are there.
    Over,
    /// For writing, where each write goes to the end of the file at that time.
    Append,
}

/// What an entry is open on (the `type` of xv6's `struct file`; the three standard streams in place of a console are
/// own).
///
/// A pipe is named by a number that its maker gives it, the same for both of its ends.
#[derive(Debug, Drop)]
pub enum Object {
    /// The standard input.
    Input,
    /// The standard output.
    Out,
    /// The diagnostics.
    Diag,
    /// A file.
    File(Name, Mode),
    /// The read end of a pipe.
    PipeRead(u64),
    /// The write end of a pipe.
    PipeWrite(u64),
}

impl Object {
    ghost use Rattle.std.specs.Prelude.{◌≡◌};

    // An equal object.
    pub(crate) fn twin(&self) -> Object
        ensures { result ≡ self.now }
    {
        match self {
            Object::Input => Object::Input,
            Object::Out => Object::Out,
            Object::Diag => Object::Diag,
            Object::File(name, mode) => Object::File(name.twin(), *mode),
            Object::PipeRead(pipe) => Object::PipeRead(*pipe),
            Object::PipeWrite(pipe) => Object::PipeWrite(*pipe),
        }
    }
}
