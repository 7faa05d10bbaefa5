//! Why the program fails.

ghost use Rattle.std.specs.Prelude.{◌≡◌};
ghost use Rattle.xvsh_read.specs.Status.{status_code, status_of, of_host, of_files};

use crate::host::HostFault;
use crate::status::Status;
use mem_files::FilesFault;
use script_load::LoadFault;
use std::alloc::AllocError;
use std::fmt;

/// Why the program fails. Each is reported as one line on standard error after `xvsh: `. A path is printed as it was given,
/// and `-` stands for standard input.
#[derive(Clone, Copy, Debug)]
pub enum Fault<'a> {
    Unreadable(&'a str),
    /// A script or a standard input of more than 1,048,576 bytes, or a file of more than 274,432.
    TooLong(&'a str),
    /// This line of the script, counted from 1.
    LineTooLong(usize),
    /// This line of the script, counted from 1.
    ByteZero(usize),
    BadName(&'a str),
    /// A FILE before the one at this path has its name.
    TakenName(&'a str),
    TooManyFiles,
    /// The script would make a file too large, or one too many.
    TooLarge,
    Memory,
}

impl<'a> Fault<'a> {
    /// The status with which the program ends.
    pub fn status(self) -> Status
        ensures { status_code result ≡ status_of self.entry }
    {
        match self {
            Fault::TooLarge | Fault::Memory => Status::NoRoom,
            Fault::Unreadable(_)
            | Fault::TooLong(_)
            | Fault::LineTooLong(_)
            | Fault::ByteZero(_)
            | Fault::BadName(_)
            | Fault::TakenName(_)
            | Fault::TooManyFiles => Status::Failed,
        }
    }

    /// What helps whoever meets it, in a sentence; empty where nothing does.
    pub fn hint(self) -> &'static str {
        match self {
            Fault::TooLong(_) => {
                "a script and a standard input have at most 1048576 bytes, and a file at most 274432"
            }
            Fault::LineTooLong(_) => {
                "a line of a script has at most 511 bytes: is this file a script?"
            }
            Fault::ByteZero(_) => {
                "a script is text, which holds no zero byte: is this file a script?"
            }
            Fault::BadName(_) => {
                "a file's name, the part of its path after the last `/`, has 1 to 14 bytes"
            }
            Fault::TakenName(_) => "a file's name is the part of its path after the last `/`",
            Fault::TooManyFiles => "a script has at most 200 files",
            Fault::TooLarge => {
                "the script makes a file of more than 274432 bytes, or more than 200 files, or too much output"
            }
            Fault::Unreadable(_) | Fault::Memory => "",
        }
    }

    /// Why the bytes at this path can't be read.
    pub fn at_path(path: &'a str, fault: HostFault) -> Self
        ensures { result ≡ of_host path.entry fault }
    {
        match fault {
            HostFault::Unreadable => Fault::Unreadable(path),
            HostFault::TooLong => Fault::TooLong(path),
            HostFault::Memory => Fault::Memory,
        }
    }

    /// Why the file at this path can't be among the script's files.
    pub fn of_file(path: &'a str, fault: FilesFault) -> Self
        ensures { result ≡ of_files path.entry fault }
    {
        match fault {
            FilesFault::BadName => Fault::BadName(path),
            FilesFault::FullFiles => Fault::TooManyFiles,
            FilesFault::FullSize => Fault::TooLong(path),
            FilesFault::Missing | FilesFault::Memory | FilesFault::Gap => Fault::Memory,
        }
    }
}

impl fmt::Display for Fault<'_> {
    ghost use Rattle.std.specs.Prelude.{Some};
    ghost use Rattle.xvsh_read.specs.Status.{fault_words};

    ghost output = { λ fault. Some (fault_words fault) };

    fn fmt<W: fmt::Write>(&self, f: &mut fmt::Formatter<W>) -> fmt::Result {
        match *self {
            Fault::Unreadable(path) => write!(f, "cannot read {path}"),
            Fault::TooLong(path) => write!(f, "{path} is too long"),
            Fault::LineTooLong(n) => write!(f, "line {n} is too long"),
            Fault::ByteZero(n) => write!(f, "line {n} holds a zero byte"),
            Fault::BadName(path) => write!(f, "bad file name {path}"),
            Fault::TakenName(path) => write!(f, "{path} has the name of a file before it"),
            Fault::TooManyFiles => f.write_str("too many files"),
            Fault::TooLarge => f.write_str("too large"),
            Fault::Memory => f.write_str("no memory"),
        }
    }
}

impl<'a> From<LoadFault> for Fault<'a> {
    ghost use Rattle.std.specs.Prelude.{◌≡◌};
    ghost use Rattle.xvsh_read.specs.Status.{of_load};

    ghost from_gives = { λ fault given. given ≡ of_load fault };

    fn from(fault: LoadFault) -> Fault<'a> {
        match fault {
            LoadFault::LineTooLong(n) => Fault::LineTooLong(n),
            LoadFault::ByteZero(n) => Fault::ByteZero(n),
            LoadFault::Memory => Fault::Memory,
        }
    }
}

impl<'a> From<AllocError> for Fault<'a> {
    ghost use Rattle.std.specs.Prelude.{◌≡◌};
    ghost use Rattle.xvsh_read.specs.declared.fault.Fault.TheVariants.{Memory};

    ghost from_gives = { λ _ given. given ≡ Memory };

    fn from(_error: AllocError) -> Fault<'a> {
        Fault::Memory
    }
}
