//! Files as one block of bytes, with a table of lengths.
ghost use Rattle.std.specs.Prelude.{◌≡◌, ◌++◌, ◌∷◌, ◌<◌, [], IfOk, OnOk, Some, slice_get, length};
ghost use Rattle.prog_parts.specs.NameSets.{among};
ghost use Rattle.embed.specs.Packing.{sizes_of_one, sizes_of, block_of, mark_of};

use mem_files::Files;
use mem_files::laws::are_files;
use prog_parts::is_among;
use sh_lexer::Bytes;
use std::alloc::{AllocError, Allocator, Global};

/// How long the parts of a file are in a block.
#[repr(C)]
#[derive(Clone, Copy)]
pub struct FileSizes {
    /// How many bytes its name has.
    pub name: usize,
    /// How many bytes it has.
    pub bytes: usize,
    /// 1 where its bytes may depend on the order of processes, else 0.
    pub soft: u32,
}

/// Files in byte order of their names.
#[derive(Drop)]
pub struct Packed {
    /// How long each is.
    pub sizes: Vec<FileSizes>,
    /// The name of each, and behind it its bytes.
    pub block: Vec<u8>,
}

fn mark_of(is_soft: bool) -> u32
    ensures { result ≡ mark_of is_soft }
{
    if is_soft { 1 } else { 0 }
}

// Adds a file.
fn add_file(name: &[u8], bytes: &[u8], is_soft: bool, packed: &mut Packed) -> Result<(), AllocError>
    ensures sizes { OnOk result (packed.new.sizes.items ≡ packed.old.sizes.items ++ sizes_of_one is_soft name.now bytes.now ∷ []) }
    ensures block { OnOk result (packed.new.block.items ≡ packed.old.block.items ++ (name.now ++ bytes.now)) }
{
    packed.sizes.push(FileSizes {
        name: name.len(),
        bytes: bytes.len(),
        soft: mark_of(is_soft),
    })?;
    packed.block.extend_from_slice(name)?;
    packed.block.extend_from_slice(bytes)?;
    Ok(())
}

// The name and the bytes of a file by its place in byte order.
fn file_at<A: Allocator>(files: &Files<A>, place: usize) -> (&[u8], &[u8])
    requires { place < length files.now }
    ensures { slice_get files.now place ≡ Some (result.0.now, result.1.now) }
{
    are_files(files);
    let Some(name) = files.name_at(place) else {
        return (&[], &[]);
    };
    let Some(bytes) = files.get(name) else {
        return (name, &[]);
    };
    (name, bytes)
}

/// All files of a set in byte order of their names, of which those with these names are soft.
pub fn pack<A: Allocator, S: Allocator>(
    alloc: Global,
    files: &Files<A>,
    soft: &[Bytes<S>],
) -> Result<Packed, AllocError>
    ensures sizes { IfOk result (λ packed. packed.sizes.items ≡ sizes_of (among soft.now) files.now) }
    ensures block { IfOk result (λ packed. packed.block.items ≡ block_of files.now) }
{
    let mut packed = Packed {
        sizes: Vec::new(alloc),
        block: Vec::new(alloc),
    };
    for i in 0..files.count() {
        let (name, bytes) = file_at(files, i);
        add_file(name, bytes, is_among(soft, name), &mut packed)?;
    }
    Ok(packed)
}
