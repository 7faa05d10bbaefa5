//! Runs of a script by its meaning.
ghost use Rattle.std.specs.Prelude.{◌≡◌, IfErr, IfOk};
ghost use Rattle.prog_parts.specs.NameSets.{among};
ghost use Rattle.script_load.specs.Line.{lines_of};
ghost use Rattle.embed.specs.Packing.{sizes_of, block_of};
ghost use Rattle.embed.specs.Plain.{IsMeant, IsMeaningFault, IsPlainAnswer, IsPlainFault};

use crate::beginning::{Begun, begin};
use crate::fault::EmbedFault;
use crate::packing::{Packed, pack};
use crate::task::Task;
use heap_budget::BudgetHeap;
use mem_files::laws::are_files;
use plain_run::{Plain, PlainFault, plain};
use std::alloc::{AllocError, Allocator, Global};

/// What a script gives by its meaning.
#[derive(Drop)]
pub struct PlainAnswer {
    /// Its standard output.
    pub out: Vec<u8>,
    /// The files at the end.
    pub files: Packed,
    /// Whether no order of its processes changes what it gives, soft files left out.
    pub is_settled: bool,
}

// A copy of an outcome.
fn copy_of<A: Allocator>(alloc: Global, value: &Plain<A>) -> Result<PlainAnswer, AllocError>
    ensures out { IfOk result (λ answer. answer.out.items ≡ value.now.out) }
    ensures sizes { IfOk result (λ answer. answer.files.sizes.items ≡ sizes_of (among value.now.soft) value.now.files) }
    ensures block { IfOk result (λ answer. answer.files.block.items ≡ block_of value.now.files) }
    ensures settled { IfOk result (λ answer. answer.is_settled ≡ value.now.settled) }
{
    let files = pack(alloc, &value.files, value.soft.as_slice())?;
    let out = Vec::from_slice(alloc, value.out.as_slice())?;
    Ok(PlainAnswer {
        out,
        files,
        is_settled: value.settled,
    })
}

// Runs what was begun on this standard input, in memory of this heap.
fn plain_in<A: Allocator + Copy>(
    alloc: Global,
    heap: A,
    begun: &Begun,
    stdin: &[u8],
) -> Result<PlainAnswer, EmbedFault>
    ensures gives { IfOk result (IsMeant begun.now.script.profile (lines_of begun.now.script.lines) stdin.now begun.now.files) }
    ensures fault { IfErr result (IsMeaningFault begun.now.script.profile (lines_of begun.now.script.lines) stdin.now begun.now.files) }
{
    let value = match plain(heap, &begun.script, stdin, &begun.files) {
        Ok(value) => value,
        Err(PlainFault::TooLarge) => return Err(EmbedFault::TooLarge),
        Err(PlainFault::Memory) => return Err(EmbedFault::Memory),
    };
    are_files(&value.files);
    match copy_of(alloc, &value) {
        Ok(answer) => Ok(answer),
        Err(_) => Err(EmbedFault::Memory),
    }
}

/// Runs the script of a task by its meaning: each pipe's left side to its end before its right side starts.
///
/// Memory for the run comes out of the task's budget, if there is one; what the run is begun with and the answer don't.
/// `TooLarge` where the script's meaning passes a limit; `Memory` where memory is refused, or the budget is spent.
pub fn plain_of(alloc: Global, task: &Task<'_>) -> Result<PlainAnswer, EmbedFault>
    ensures ran { IfOk result (IsPlainAnswer task.now) }
    ensures fault { IfErr result (IsPlainFault task.now) }
{
    let begun = match begin(alloc, task) {
        Ok(begun) => begun,
        Err(fault) => return Err(EmbedFault::Start(fault)),
    };
    if task.budget == 0 {
        return plain_in(alloc, alloc, &begun, task.stdin);
    }
    let heap = BudgetHeap::new(alloc, task.budget);
    plain_in(alloc, &heap, &begun, task.stdin)
}
