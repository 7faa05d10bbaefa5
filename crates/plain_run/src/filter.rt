//! Programs that work on their inputs one by one.
ghost use Rattle.std.specs.Prelude.{◌≡◌, ◌++◌, [], List, ℕ, OnOk, IfOk};
ghost use Rattle.mem_files.specs.Files.{files};
ghost use Rattle.meaning_model.specs.Inputs.{filter_value, of_files};
ghost use Rattle.plain_run.specs.Gives.{Gives, Extends};

use crate::store::find;
use mem_files::Files;
use sh_lexer::Bytes;
use std::alloc::{AllocError, Allocator};

pub trait Filter {
    // What it writes of an input of this name and these bytes; standard input has no name.
    ghost written: { Self → List ℕ → List ℕ → List ℕ };

    // What it leaves unread of standard input.
    ghost left: { Self → List ℕ → List ℕ };

    // Adds what it writes of an input, and returns what it leaves unread.
    fn work<'i, A: Allocator + Copy>(
        &self,
        alloc: A,
        name: &[u8],
        input: &'i [u8],
        out: &mut Vec<u8, A>,
    ) -> Result<&'i [u8], AllocError>
        ensures out { OnOk result (out.new.items ≡ out.old.items ++ written self.now name.now input.now) }
        ensures left { IfOk result (λ rest. rest.now ≡ left self.now input.now) }
        ensures kept { Extends out.old.items out.new.items };
}

// What a program reads: the files of these names, or standard input where there are none.
#[derive(Drop)]
pub struct Inputs<'f, 'i, A: Allocator, B: Allocator> {
    pub names: &'f [Bytes<B>],
    pub input: &'i [u8],
    pub store: &'f Files<A>,
}

// Works on the files in order, up to and without the first that is not found.
fn run_on_files<P: Filter, A: Allocator + Copy, B: Allocator>(
    alloc: A,
    program: &P,
    names: &[Bytes<B>],
    store: &Files<A>,
    out: &mut Vec<u8, A>,
) -> Result<(), AllocError>
    ensures out { OnOk result (out.new.items ≡ out.old.items ++ of_files (P.written program.now) names.now (files store.now)) }
    ensures kept { Extends out.old.items out.new.items }
{
    for name in names {
        let name = name.as_slice();
        match find(store, name) {
            Some(bytes) => program.work(alloc, name, bytes, out)?,
            None => return Ok(()),
        };
    }
    Ok(())
}

// Works on standard input where there are no file words, else on the files.
pub fn run_filter<'i, P: Filter, A: Allocator + Copy, B: Allocator>(
    alloc: A,
    program: &P,
    inputs: &Inputs<'_, 'i, A, B>,
    out: &mut Vec<u8, A>,
) -> Result<&'i [u8], AllocError>
    ensures gives { IfOk result (λ rest. Gives (filter_value (P.written program.now) (P.left program.now) inputs.now.names.now inputs.now.input.now (files inputs.now.store.now)) out.old.items out.new.items rest.now (files inputs.now.store.now)) }
    ensures kept { Extends out.old.items out.new.items }
{
    if inputs.names.is_empty() {
        return program.work(alloc, &[], inputs.input, out);
    }
    run_on_files(alloc, program, inputs.names, inputs.store, out)?;
    Ok(inputs.input)
}

// All of its input (`user/cat.c`).
#[derive(Drop)]
pub struct Cat;

impl Filter for Cat {
    ghost written = { λ _ name bytes. bytes };

    ghost left = { λ _ bytes. [] };

    fn work<'i, A: Allocator + Copy>(
        &self,
        _alloc: A,
        _name: &[u8],
        input: &'i [u8],
        out: &mut Vec<u8, A>,
    ) -> Result<&'i [u8], AllocError> {
        out.extend_from_slice(input)?;
        Ok(&[])
    }
}
