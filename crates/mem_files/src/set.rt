//! A set of files in memory.

ghost use Rattle.std.specs.Prelude.{◌≡◌, ℕ, ◌+◌, ◌-◌, ◌<◌, ◌≤◌, ◌↔◌, ◌≢◌, true, false, [], ◌++◌, length, take, drop, min, option_copied, option_map, slice_get, None, IsOkUnless, Err, ◌⊎◌, IsErrOf, IsOk, IsSome, IsTrue, IfOk, IfErr, IfSome, IsSomeAnd, OnOk, OnErr};
ghost use Rattle.mem_files.specs.Name.{Name, is_openable};
ghost use Rattle.mem_files.specs.Files.{files, with_file, bytes_of};
ghost use Rattle.mem_files.specs.Overlay.{overlay, written};
ghost use Rattle.mem_files.specs.Listing.{AreFiles, Holds, IsFullFor, max_files, max_size};

use crate::entry::Entry;
use crate::fault::FilesFault;
use crate::name::is_openable;
use crate::search::{find, place};
use std::alloc::Allocator;
use std::marker::Model;

/// The most files that a set can have (own).
pub const MAX_FILES: usize = 200;

/// The most bytes that a file can have: 268 blocks of 1,024, `kernel/fs.h`'s `MAXFILE` and `BSIZE`.
pub const MAX_SIZE: usize = 268 * 1024;

/// A set of files in memory (own): at most 200 names of 1 to 14 bytes, none of them `/` or 0, each
/// with at most 274,432 bytes.
///
/// A contract sees it as the list of names and bytes in byte order of the names. The files lie in one
/// vector in that order, so a name is found by a binary search. A file keeps room for at most about
/// twice its bytes.
#[derive(Drop)]
pub struct Files<A: Allocator> {
    entries: Vec<Entry<A>, A>,
}

impl<A: Allocator> Model for Files<A> {
    ghost use Rattle.std.specs.Prelude.{List, ℕ};
    ghost use Rattle.mem_files.specs.Listing.{AreFiles};

    ghost Value = { List (List ℕ × List ℕ) };

    ghost view = { λ f. f.entries.items };

    ghost invariant = { λ f. AreFiles f.entries.items };
}

impl<A: Allocator> Files<A> {
    /// A set with no files, whose later calls take their memory from `alloc`. Takes none itself (own).
    pub fn new(alloc: A) -> Self
        ensures { result ≡ [] }
    {
        Files {
            entries: Vec::new(alloc),
        }
    }

    /// How many files there are. Takes no memory (own).
    pub fn count(&self) -> usize
        ensures value { result ≡ length self.now }
        ensures files { AreFiles self.now }
    {
        self.entries.len()
    }

    /// The name at place `i`, counted from 0, of all names in byte order; `None` from `count` on.
    /// Takes no memory (own).
    pub fn name_at(&self, i: usize) -> Option<&[u8]>
        ensures { option_copied result ≡ option_map (λ entry. entry.0) (slice_get self.now i) }
    {
        if i < self.entries.len() {
            Some(self.entries[i].name())
        } else {
            None
        }
    }

    /// The bytes of the file `name`; `None` where there is no file of that name. Takes no memory (own).
    pub fn get(&self, name: &[u8]) -> Option<&[u8]>
        ensures { option_copied result ≡ files self.now name.now }
    {
        match find(self.entries.as_slice(), name) {
            Some(at) => Some(self.entries[at].bytes()),
            None => None,
        }
    }

    /// Copies the bytes of the file `name` from `at` on, counted from 0, to the front of the buffer, as
    /// many as there are and as fit, and returns how many: 0 where `at` is the end of the file or past it
    /// (`kernel/fs.c`'s `readi`). The rest of the buffer stays. Takes no memory.
    ///
    /// `Missing` where there is no file of that name; the buffer then stays as it was.
    pub fn read_at(&self, name: &[u8], at: usize, buf: &mut [u8]) -> Result<usize, FilesFault>
        ensures count { IfOk result (λ count. IfSome (files self.now name.now)
            (λ bytes. count ≡ min (length buf.old) (length bytes - at))) }
        ensures bytes { OnOk result (IfSome (files self.now name.now)
            (λ bytes. buf.new ≡ overlay (take (length buf.old) (drop at bytes)) buf.old)) }
        ensures missing { IsErrOf result FilesFault.Missing ↔ (files self.now name.now ≡ None) }
        ensures only { IsOkUnless result FilesFault.Missing }
        ensures same { OnErr result (buf.new ≡ buf.old) }
    {
        let Some(found) = find(self.entries.as_slice(), name) else {
            return Err(FilesFault::Missing);
        };
        Ok(self.entries[found].read(at, buf))
    }

    /// Writes the bytes over those of the file `name` from `at` on, counted from 0; the file grows where
    /// they go past its end. Its room grows by doubling, so that many writes at the end are linear work.
    ///
    /// In this order, each with nothing changed: `Missing` where there is no file of that name; `Gap`
    /// where `at` is past the end of the file; `FullSize` where `at` plus the number of bytes is
    /// more than 274,432; `Memory`, which can come only where the file would grow. `kernel/fs.c`'s
    /// `writei` refuses the second and third too. That all the bytes are refused, and not only those
    /// that don't fit, is own.
    pub fn write_at(&mut self, name: &[u8], at: usize, bytes: &[u8]) -> Result<(), FilesFault>
        ensures holds { OnOk result (Holds self.old self.new name.now
            (written (bytes_of (files self.old name.now)) at bytes.now)) }
        ensures missing { IsErrOf result FilesFault.Missing ↔ (files self.old name.now ≡ None) }
        ensures gap { IsErrOf result FilesFault.Gap
            ↔ IsSomeAnd (files self.old name.now) (λ old. length old < at) }
        ensures full_size { IsErrOf result FilesFault.FullSize
            ↔ IsSomeAnd (files self.old name.now) (λ old. (at ≤ length old) × (max_size < at + length bytes.now)) }
        ensures memory { IsErrOf result FilesFault.Memory
            → IsSomeAnd (files self.old name.now) (λ old. length old < at + length bytes.now) }
        ensures never { (result ≢ Err FilesFault.BadName) × (result ≢ Err FilesFault.FullFiles) }
        ensures same { OnErr result (self.new ≡ self.old) }
    {
        let Some(found) = find(self.entries.as_slice(), name) else {
            return Err(FilesFault::Missing);
        };
        let entry = &mut self.entries[found];
        if at > entry.bytes().len() {
            return Err(FilesFault::Gap);
        }
        if bytes.len() > MAX_SIZE - at {
            return Err(FilesFault::FullSize);
        }
        entry.write(at, bytes)?;
        Ok(())
    }

    /// Appends the bytes to those of the file `name`, and returns how many it then has. Its room grows by doubling, so
    /// that many appends are linear work (own: xv6 has no call that appends).
    ///
    /// In this order, each with nothing changed: `Missing` where there is no file of that name; `FullSize` where the
    /// file would have more than 274,432 bytes; `Memory`, which can come only where there are bytes.
    pub fn append(&mut self, name: &[u8], bytes: &[u8]) -> Result<usize, FilesFault>
        ensures holds { OnOk result (Holds self.old self.new name.now (bytes_of (files self.old name.now) ++ bytes.now)) }
        ensures size { IfOk result (λ size. size ≡ length (bytes_of (files self.old name.now)) + length bytes.now) }
        ensures missing { IsErrOf result FilesFault.Missing ↔ (files self.old name.now ≡ None) }
        ensures full_size { IsErrOf result FilesFault.FullSize
            ↔ IsSomeAnd (files self.old name.now) (λ old. max_size < length old + length bytes.now) }
        ensures memory { IsErrOf result FilesFault.Memory → 0 < length bytes.now }
        ensures never { (result ≢ Err FilesFault.BadName) × (result ≢ Err FilesFault.FullFiles) × (result ≢ Err FilesFault.Gap) }
        ensures same { OnErr result (self.new ≡ self.old) }
    {
        let Some(found) = find(self.entries.as_slice(), name) else {
            return Err(FilesFault::Missing);
        };
        let entry = &mut self.entries[found];
        let size = entry.bytes().len();
        if bytes.len() > MAX_SIZE - size {
            return Err(FilesFault::FullSize);
        }
        entry.append(bytes)?;
        Ok(size + bytes.len())
    }

    /// Whether the two sets have the same files with the same bytes, whatever allocators hold them (own).
    pub fn same<B: Allocator>(&self, other: &Files<B>) -> bool
        ensures { IsTrue result ↔ (self.now ≡ other.now) }
    {
        if self.entries.len() != other.entries.len() {
            return false;
        }
        for i in 0..self.entries.len() {
            if !self.entries[i].same(&other.entries[i]) {
                return false;
            }
        }
        true
    }

    /// An equal set of files, with memory from `alloc` (own). No file of it has room to spare.
    ///
    /// `Memory` where memory is refused; what was taken is then freed.
    pub fn copy<B: Allocator + Copy>(&self, alloc: B) -> Result<Files<B>, FilesFault>
        ensures equal { IfOk result (λ copy. copy ≡ self.now) }
        ensures only { IsOkUnless result FilesFault.Memory }
    {
        let mut entries = Vec::with_capacity(alloc, self.entries.len())?;
        for entry in &self.entries {
            entries.push(entry.copy_in(alloc)?)?;
        }
        Ok(Files { entries })
    }
}

impl<A: Allocator + Copy> Files<A> {
    /// Makes the file `name` hold these bytes and no others, whether it was there or not (own).
    ///
    /// In this order, each with nothing changed: `BadName` where the name can't be opened; `FullSize`
    /// where there are more than 274,432 bytes; `FullFiles` where the name is new and there are 200
    /// files; `Memory`.
    pub fn put(&mut self, name: &[u8], bytes: &[u8]) -> Result<(), FilesFault>
        ensures holds { OnOk result (Holds self.old self.new name.now bytes.now) }
        ensures bad_name { IsErrOf result FilesFault.BadName ↔ (is_openable name.now ≡ false) }
        ensures full_size { IsErrOf result FilesFault.FullSize ↔ (is_openable name.now ≡ true) × (max_size < length bytes.now) }
        ensures full_files { IsErrOf result FilesFault.FullFiles
            ↔ (is_openable name.now ≡ true) × (length bytes.now ≤ max_size) × IsFullFor self.old name.now }
        ensures never { (result ≢ Err FilesFault.Missing) × (result ≢ Err FilesFault.Gap) }
        ensures same { OnErr result (self.new ≡ self.old) }
    {
        if !is_openable(name) {
            return Err(FilesFault::BadName);
        }
        if bytes.len() > MAX_SIZE {
            return Err(FilesFault::FullSize);
        }
        match find(self.entries.as_slice(), name) {
            Some(at) => {
                let copy = Vec::from_slice(*self.entries.allocator(), bytes)?;
                self.entries[at].replace(copy);
                Ok(())
            }
            None => self.add(name, bytes),
        }
    }

    /// Makes an empty file `name` where there is none; a file that is there stays as it was
    /// (`kernel/sysfile.c`'s `create`). A file that is there takes no memory, so it isn't refused.
    ///
    /// In this order, each with nothing changed: `BadName` where the name can't be opened; `FullFiles`
    /// where the name is new and there are 200 files; `Memory`.
    pub fn create(&mut self, name: &[u8]) -> Result<(), FilesFault>
        ensures holds { OnOk result (Holds self.old self.new name.now (bytes_of (files self.old name.now))) }
        ensures bad_name { IsErrOf result FilesFault.BadName ↔ (is_openable name.now ≡ false) }
        ensures full_files { IsErrOf result FilesFault.FullFiles ↔ (is_openable name.now ≡ true) × IsFullFor self.old name.now }
        ensures never { (result ≢ Err FilesFault.Missing) × (result ≢ Err FilesFault.FullSize) × (result ≢ Err FilesFault.Gap) }
        ensures there { IsSome (files self.old name.now) → IsOk result }
        ensures same { OnErr result (self.new ≡ self.old) }
    {
        match find(self.entries.as_slice(), name) {
            Some(_) => Ok(()),
            None if is_openable(name) => self.add(name, &[]),
            None => Err(FilesFault::BadName),
        }
    }

    /// Empties the file `name` (`kernel/fs.c`'s `itrunc`). Takes no memory, and frees that of the old
    /// bytes.
    ///
    /// `Missing` where there is no file of that name, and then nothing changes.
    pub fn truncate(&mut self, name: &[u8]) -> Result<(), FilesFault>
        ensures holds { OnOk result (Holds self.old self.new name.now []) }
        ensures missing { IsErrOf result FilesFault.Missing ↔ (files self.old name.now ≡ None) }
        ensures only { IsOkUnless result FilesFault.Missing }
        ensures same { OnErr result (self.new ≡ self.old) }
    {
        let Some(at) = find(self.entries.as_slice(), name) else {
            return Err(FilesFault::Missing);
        };
        let empty = Vec::new(*self.entries.allocator());
        self.entries[at].replace(empty);
        Ok(())
    }

    // Adds a file of a new name.
    fn add(&mut self, name: &[u8], bytes: &[u8]) -> Result<(), FilesFault>
        requires good { is_openable name.now ≡ true }
        requires small { length bytes.now ≤ max_size }
        requires new { files self.old name.now ≡ None }
        ensures holds { OnOk result (Holds self.old self.new name.now bytes.now) }
        ensures full { IsErrOf result FilesFault.FullFiles ↔ (max_files ≤ length self.old) }
        ensures only { IfErr result (λ fault. (fault ≡ FilesFault.FullFiles) ⊎ (fault ≡ FilesFault.Memory)) }
        ensures same { OnErr result (self.new ≡ self.old) }
    {
        if self.entries.len() >= MAX_FILES {
            return Err(FilesFault::FullFiles);
        }
        let at = place(self.entries.as_slice(), name);
        let entry = Entry::make(*self.entries.allocator(), name, bytes)?;
        self.entries.insert(at, entry)?;
        Ok(())
    }
}
