//! The tables that a script can fill.
ghost use Rattle.std.specs.Prelude.{◌≡◌};
ghost use Rattle.room_bounds.specs.Room.{most_of};

/// How many processes there are (`kernel/param.h`'s `NPROC`).
pub const MOST_PROCESSES: u64 = proc_table::PROCS as u64;

/// How many open-file entries there are (`kernel/param.h`'s `NFILE`).
pub const MOST_ENTRIES: u64 = fd_table::ENTRIES as u64;

/// How many descriptors a process has (`kernel/param.h`'s `NOFILE`).
pub const MOST_DESCRIPTORS: u64 = fd_table::DESCRIPTORS as u64;

/// How many files are sure to have room (own): one fewer than there can be.
pub const MOST_FILES: u64 = 199;

/// How many bytes a file can have (`kernel/fs.h`'s `MAXFILE` and `BSIZE`).
pub const MOST_BYTES: u64 = mem_files::MAX_SIZE as u64;

/// Something of which a script may need more than there is.
#[derive(Clone, Copy, Debug, PartialEq, Eq)]
pub enum Table {
    /// Processes at once.
    Processes,
    /// Open-file entries at once.
    Entries,
    /// Descriptors of one process at once.
    Descriptors,
    /// Files.
    Files,
    /// Bytes of a file.
    Size,
}

impl Table {
    /// How much of it there is.
    pub fn most(self) -> u64
        ensures { result ≡ most_of self }
    {
        match self {
            Table::Processes => MOST_PROCESSES,
            Table::Entries => MOST_ENTRIES,
            Table::Descriptors => MOST_DESCRIPTORS,
            Table::Files => MOST_FILES,
            Table::Size => MOST_BYTES,
        }
    }
}
