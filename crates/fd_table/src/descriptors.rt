//! The descriptors of a process.

ghost use Rattle.std.specs.Prelude.{◌≡◌, ◌≤◌, ◌<◌, IfSome, All, None, ok_or, length, replicate};
ghost use Rattle.fd_table.specs.declared.faults.FdFault.TheVariants.{BadFd, FullFds};

use crate::{Entry, FdFault, Object, OpenFiles};
use std::marker::Model;

/// How many descriptors a process has (xv6's `NOFILE`).
pub const DESCRIPTORS: usize = 16;

/// The descriptors of a process (xv6's `ofile` of `struct proc`).
///
/// Contracts see the list of the 16 places, each with the number of the entry that it holds, or `None`.
#[derive(Debug, Drop)]
pub struct Fds {
    places: [Option<Entry>; DESCRIPTORS],
}

impl Model for Fds {
    ghost use Rattle.std.specs.Prelude.{◌≡◌, length};
    ghost use Rattle.fd_table.specs.declared.descriptors.TheConstants.{DESCRIPTORS};
    ghost use Rattle.fd_table.specs.Descriptors.{Descriptors};

    ghost Value = { Descriptors };

    ghost view = { λ f. f.places };

    ghost invariant = { λ f. length f.places ≡ DESCRIPTORS };
}

impl Fds {
    ghost use Rattle.std.specs.Prelude.{◌≡◌, ◌≤◌, ◌<◌, IfSome, All, None, ok_or, length, replicate};
    ghost use Rattle.fd_table.specs.declared.descriptors.TheConstants.{DESCRIPTORS};
    ghost use Rattle.fd_table.specs.declared.faults.FdFault.TheVariants.{BadFd, FullFds};
    ghost use Rattle.fd_table.specs.Entries.{free_count};
    ghost use Rattle.fd_table.specs.Descriptors.{entry_of, lowest_free, installed, dup_answer, after_dup, held_by_dup, close_answer, after_close, released_by_close, all_held, HoldsInUse, CanCountMore, CountsFit};

    /// A table in which no descriptor is open (own).
    pub fn new() -> Self
        ensures { result ≡ replicate DESCRIPTORS None }
    {
        Fds {
            places: [None; DESCRIPTORS],
        }
    }

    /// The lowest descriptor that isn't open, counted from 0; `None` where all are open (`fdalloc`).
    pub fn lowest_free(&self) -> Option<usize>
        ensures value { result ≡ lowest_free self.now }
        ensures within { IfSome result (λ fd. fd < DESCRIPTORS) }
    {
        self.places.iter().position(|place| place.is_none())
    }

    /// How many descriptors aren't open (own).
    pub fn free_count(&self) -> usize
        ensures count { result ≡ free_count self.now }
        ensures within { result ≤ DESCRIPTORS }
    {
        self.places.iter().filter(|place| place.is_none()).count()
    }

    /// The entry that the descriptor `fd` holds (`argfd`).
    ///
    /// `BadFd` where it isn't open, and for any number past 15.
    pub fn get(&self, fd: usize) -> Result<Entry, FdFault>
        ensures { result ≡ ok_or (entry_of self.now fd) BadFd }
    {
        match self.places.get(fd) {
            Some(Some(entry)) => Ok(*entry),
            _ => Err(FdFault::BadFd),
        }
    }

    /// Makes the lowest free descriptor hold `entry`, and returns its number (`fdalloc`). The entry's count doesn't
    /// change.
    ///
    /// `FullFds` where no descriptor is free.
    pub fn install(&mut self, entry: Entry) -> Result<usize, FdFault>
        ensures place { result ≡ ok_or (lowest_free self.old) FullFds }
        ensures after { self.new ≡ installed self.old entry }
    {
        let Some(fd) = self.lowest_free() else {
            return Err(FdFault::FullFds);
        };
        self.places[fd] = Some(entry);
        Ok(fd)
    }

    /// Makes the lowest free descriptor share the entry of `fd`, and so its offset, and returns its number (`sys_dup`).
    ///
    /// `BadFd` where `fd` isn't open, and then `FullFds` where no descriptor is free.
    pub fn dup(&mut self, files: &mut OpenFiles, fd: usize) -> Result<usize, FdFault>
        requires in_use { HoldsInUse files.old (entry_of self.old fd) }
        requires fits { CanCountMore files.old (entry_of self.old fd) }
        ensures place { result ≡ dup_answer (entry_of self.old fd) (lowest_free self.old) }
        ensures after { self.new ≡ after_dup self.old (entry_of self.old fd) (lowest_free self.old) }
        ensures files { files.new ≡ held_by_dup files.old (entry_of self.old fd) (lowest_free self.old) }
    {
        let entry = self.get(fd)?;
        let fd = self.install(entry)?;
        files.hold(entry);
        Ok(fd)
    }

    /// Closes the descriptor `fd`, and returns what its entry had open where no other descriptor holds that entry
    /// (`sys_close`).
    ///
    /// `BadFd` where `fd` isn't open.
    pub fn close(&mut self, files: &mut OpenFiles, fd: usize) -> Result<Option<Object>, FdFault>
        requires { HoldsInUse files.old (entry_of self.old fd) }
        ensures answer { result ≡ close_answer files.old (entry_of self.old fd) }
        ensures after { self.new ≡ after_close self.old fd (entry_of self.old fd) }
        ensures files { files.new ≡ released_by_close files.old (entry_of self.old fd) }
    {
        let entry = self.get(fd)?;
        self.places[fd] = None;
        Ok(files.release(entry))
    }

    /// The descriptors of a child: they share the entries, and each entry is held once more for each descriptor that
    /// holds it (`kfork`).
    pub fn fork_copy(&self, files: &mut OpenFiles) -> Fds
        requires in_use { All (HoldsInUse files.old) self.now }
        requires fits { CountsFit (all_held files.old self.now) }
        ensures same { result ≡ self.now }
        ensures files { files.new ≡ all_held files.old self.now }
    {
        for place in &self.places {
            if let Some(entry) = place {
                files.hold(*entry);
            }
        }
        let mut copy = Fds::new();
        copy.places.copy_from_slice(&self.places);
        copy
    }

    /// Becomes equal to the other table; no entry's count changes (own).
    pub fn copy_from(&mut self, other: &Fds)
        ensures { self.new ≡ other.now }
    {
        self.places.copy_from_slice(&other.places);
    }
}
