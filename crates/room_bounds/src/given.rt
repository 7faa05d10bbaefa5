//! What counts of the files that are there.
ghost use Rattle.std.specs.Prelude.{◌≡◌, ◌+◌};
ghost use Rattle.mem_files.specs.Files.{files};
ghost use Rattle.tree_model.specs.FilesAhead.{sizes};
ghost use Rattle.room_bounds.specs.Given.{IsGiven, IsLargestOf, IsLargestTo};

use mem_files::Files;
use std::alloc::Allocator;

/// How many files there are, and how many bytes the largest has.
#[derive(Clone, Copy)]
pub struct Given {
    pub count: u64,
    pub largest: u64,
}

// How many bytes the file of this name has, 0 where there is none.
fn size_of<B: Allocator>(given: &Files<B>, name: &[u8]) -> u64
    ensures { result ≡ sizes (files given.now) name.now }
{
    match given.get(name) {
        Some(bytes) => bytes.len() as u64,
        None => 0,
    }
}

// The most so far, and the size of the file at this place.
fn larger_with<B: Allocator>(given: &Files<B>, i: usize, most: u64) -> u64
    ensures { IsLargestTo given.now i most → IsLargestTo given.now (i + 1) result }
{
    match given.name_at(i) {
        Some(name) => most.max(size_of(given, name)),
        None => most,
    }
}

// How many bytes the largest file has.
fn largest<B: Allocator>(given: &Files<B>) -> u64
    ensures { IsLargestOf given.now result }
{
    let mut most = 0;
    for i in 0..given.count() {
        most = larger_with(given, i, most);
    }
    most
}

/// What counts of these files.
pub fn given_of<B: Allocator>(files: &Files<B>) -> Given
    ensures { IsGiven files.now result }
{
    Given {
        count: files.count() as u64,
        largest: largest(files),
    }
}
