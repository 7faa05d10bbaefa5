//! The files of `tee` (own: xv6 has none).
ghost use Rattle.std.specs.Prelude.{◌≡◌, ◌++◌, OnOk, IfOk, IfErr, [], drop};
ghost use Rattle.mem_files.specs.Files.{files};
ghost use Rattle.meaning_model.specs.Limits.{FillOutgrows};
ghost use Rattle.meaning_model.specs.Tee.{filled, tee_bytes, tee_value, are_openable as openable};
ghost use Rattle.plain_run.specs.Gives.{Gives, IsDue, Extends, SameBeside};

use crate::fault::PlainFault;
use crate::store::give;
use mem_files::{Files, is_openable};
use sh_lexer::Bytes;
use std::alloc::Allocator;

fn are_openable<B: Allocator>(names: &[Bytes<B>]) -> bool
    ensures { result ≡ openable names.now }
{
    names.iter().all(|name| is_openable(name.as_slice()))
}

// Gives these bytes to each file, up to and without the first that can't be opened.
fn fill<A: Allocator + Copy, B: Allocator>(
    names: &[Bytes<B>],
    bytes: &[u8],
    store: &mut Files<A>,
) -> Result<(), PlainFault>
    ensures files { OnOk result (files store.new ≡ filled names.now bytes.now (files store.old)) }
    ensures large { IfErr result (IsDue (FillOutgrows names.now bytes.now (files store.old))) }
    ensures others { SameBeside names.now (files store.old) (files store.new) }
{
    for name in names {
        if !give(store, name.as_slice(), bytes)? {
            return Ok(());
        }
    }
    Ok(())
}

// The input goes to standard output and to each file; where one can't be opened, nothing is read.
pub fn tee<'i, A: Allocator + Copy, B: Allocator>(
    names: &[Bytes<B>],
    input: &'i [u8],
    store: &mut Files<A>,
    out: &mut Vec<u8, A>,
) -> Result<&'i [u8], PlainFault>
    ensures gives { IfOk result (λ rest. Gives (tee_value names.now input.now (files store.old)) out.old.items out.new.items rest.now (files store.new)) }
    ensures large { IfErr result (IsDue (FillOutgrows names.now (tee_bytes names.now input.now) (files store.old))) }
    ensures kept { Extends out.old.items out.new.items }
    ensures others { SameBeside names.now (files store.old) (files store.new) }
{
    if !are_openable(names) {
        fill(names, &[], store)?;
        return Ok(input);
    }
    fill(names, input, store)?;
    out.extend_from_slice(input)?;
    Ok(&[])
}
