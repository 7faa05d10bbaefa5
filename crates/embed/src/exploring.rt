//! Every order of a script's processes.
ghost use Rattle.std.specs.Prelude.{◌≡◌, IfErr, IfOk};
ghost use Rattle.embed.specs.Explores.{IsExploreAnswer, IsExploreRefusal, explored_fault};
ghost use Rattle.embed.specs.declared.fault.EmbedFault.TheVariants.{Memory};

use crate::beginning::{Begun, begin};
use crate::fault::EmbedFault;
use crate::task::{Task, profile_by};
use closed_search::Unwatched;
use explore_texts::object_of_found;
use script_outcomes::{Found, is_single, is_whole};
use std::alloc::Global;
use xvsh_explores::{ExploreRequest, MAX_STATES, explore_start};
use xvsh_read::{Fault, STDIN, Source, Start};

/// What every order of a script leaves.
#[derive(Drop)]
pub struct ExploreAnswer {
    /// What was found.
    pub found: Found,
    /// The object of JSON that lists it, and LF.
    pub json: Vec<u8>,
    /// Whether every order was tried, or what it leaves is known without.
    pub is_whole: bool,
    /// Whether something was found, and all that was has one output and one set of files.
    pub is_single: bool,
}

// What the runs begin with.
fn start_of(alloc: Global, begun: Begun, stdin: &[u8]) -> Result<Start, EmbedFault>
    ensures script { IfOk result (λ start. start.script ≡ begun.script) }
    ensures files { IfOk result (λ start. start.files ≡ begun.files) }
    ensures stdin { IfOk result (λ start. start.stdin.items ≡ stdin.now) }
    ensures fault { IfErr result (λ fault. fault ≡ Memory) }
{
    let Begun { script, files } = begun;
    match Vec::from_slice(alloc, stdin) {
        Ok(stdin) => Ok(Start {
            script,
            stdin,
            files,
        }),
        Err(_) => Err(EmbedFault::Memory),
    }
}

// Why nothing is reported.
fn of_explored(fault: Fault<'_>) -> EmbedFault
    ensures { result ≡ explored_fault fault.entry }
{
    match fault {
        Fault::TooLarge => EmbedFault::TooLarge,
        _ => EmbedFault::Memory,
    }
}

/// What every order of the task's processes leaves, as `xvsh explore --json`, of at most so many states of the kernel; thoroughly
/// a settled script is explored too, which else is known to have one outcome. States are the bound on memory, not the task's
/// budget.
///
/// `BadStates` where the states are none, or more than 10,000,000; `TooLarge` where a run has more turns than can be counted;
/// `Memory` where memory is refused.
pub fn explore_of(
    alloc: Global,
    task: &Task<'_>,
    states: u64,
    is_thorough: bool,
) -> Result<ExploreAnswer, EmbedFault>
    ensures found { IfOk result (IsExploreAnswer task.now states is_thorough) }
    ensures fault { IfErr result (IsExploreRefusal task.now states) }
{
    if states == 0 {
        return Err(EmbedFault::BadStates);
    }
    if states > MAX_STATES {
        return Err(EmbedFault::BadStates);
    }
    let begun = match begin(alloc, task) {
        Ok(begun) => begun,
        Err(fault) => return Err(EmbedFault::Start(fault)),
    };
    let start = match start_of(alloc, begun, task.stdin) {
        Ok(start) => start,
        Err(fault) => return Err(fault),
    };
    let request = ExploreRequest {
        source: Source {
            profile: profile_by(task.appends),
            script: STDIN,
            files: &[],
        },
        states,
        is_thorough,
        is_full: false,
        witness: None,
        draw: None,
        play: None,
        pair: None,
        is_json: true,
        input: None,
        text: None,
    };
    let found = match explore_start(alloc, &start, &request, &mut Unwatched) {
        Ok(found) => found,
        Err(fault) => return Err(of_explored(fault)),
    };
    match object_of_found(alloc, &start, &found) {
        Ok(json) => Ok(ExploreAnswer {
            is_whole: is_whole(&found),
            is_single: is_single(&found),
            found,
            json,
        }),
        Err(_) => Err(EmbedFault::Memory),
    }
}
