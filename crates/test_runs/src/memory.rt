//! A meaning, a run and a replay of which one request for memory is refused, each in turn: that is reported, and no memory is kept. The
//! lines of the script stand in an arena of the caller.

use crate::given::{TURNS, file_of};
use bumpalo::Bump;
use kernel_events::{Event, Full, Report};
use kernel_runs::{RunOneFault, replay, run_one};
use linked_list_allocator::LocalHeap;
use mem_files::Files;
use plain_run::{PlainFault, plain};
use script_load::{Script, load};
use std::alloc::{Allocator, Global};
use std::test::Fail;
use test_heap::RefusingHeap;

// Far more requests than any of the calls makes.
const MOST: u64 = 10_000;

// More than any of the calls needs at one time.
const ROOM: usize = 1 << 20;

// It writes to files, over files and through pipes, of which one is cut.
const SCRIPT: &str =
    "echo one two three; (echo four | cat; cat < p) > f; echo five >> f; cat f | tee g; wc g; head -1 g | grep f; tee f < g | tee h | head -0; cat n";

// What it writes.
const WRITTEN: &[u8] = b"one two three\nfive\np\n2 2 7 g\nfive\n";

// What is called: a script, with the file that it is given, and the events of a run of it.
#[derive(Drop)]
struct Trial<'a, S: Allocator> {
    script: &'a Script<S>,
    files: &'a Files<Global>,
    events: &'a [Event],
}

// What a call came to: all that the script means, or that memory was refused; nothing where it came to something else.
type Came = Option<bool>;

fn report_came<A: Allocator>(report: &Report<A>) -> Came {
    match report.full {
        _ if !report.finished => None,
        Some(Full::Memory) => Some(false),
        None if report.out.as_slice() == WRITTEN => Some(true),
        _ => None,
    }
}

fn meaning_came<A: Allocator + Copy, S: Allocator>(memory: A, trial: &Trial<'_, S>) -> Came {
    match plain(memory, trial.script, b"in", trial.files) {
        Ok(means) if means.out.as_slice() == WRITTEN => Some(true),
        Err(PlainFault::Memory) => Some(false),
        _ => None,
    }
}

fn run_came<A: Allocator + Copy, S: Allocator>(memory: A, trial: &Trial<'_, S>) -> Came {
    match run_one(memory, trial.script, b"in", trial.files, TURNS) {
        Ok(report) => report_came(&report),
        Err(RunOneFault::Memory) => Some(false),
        Err(_) => None,
    }
}

// Where a call of a replay is refused memory, its process goes another way than the schedule, which then may not fit.
fn replay_came<A: Allocator + Copy, S: Allocator>(memory: A, trial: &Trial<'_, S>) -> Came {
    match replay(memory, trial.script, b"in", trial.files, trial.events) {
        Ok(report) => report_came(&report),
        Err(_) => Some(false),
    }
}

fn call_came<A: Allocator + Copy, S: Allocator>(
    memory: A,
    trial: &Trial<'_, S>,
    called: &str,
) -> Came {
    match called {
        "meaning" => meaning_came(memory, trial),
        "run" => run_came(memory, trial),
        _ => replay_came(memory, trial),
    }
}

// Whether the call asks for more memory than so often; the request after these is refused, and it is reported exactly then.
fn is_refused<S: Allocator>(
    alloc: Global,
    trial: &Trial<'_, S>,
    called: &str,
    granted: u64,
) -> Result<bool, Fail> {
    let room = LocalHeap::new(alloc, ROOM)?;
    let heap = RefusingHeap::new(&room);
    heap.refuse_after(granted);
    let came = call_came(&heap, trial, called);
    if came != Some(heap.is_due()) {
        return Err(Fail::from("a call comes to something else"));
    }
    if room.used() != 0 {
        return Err(Fail::from("memory is kept"));
    }
    Ok(!heap.is_due())
}

// How many requests the call makes, each of which is refused in turn.
fn refusals<S: Allocator>(alloc: Global, trial: &Trial<'_, S>, called: &str) -> Result<u64, Fail> {
    for granted in 0..MOST {
        if !is_refused(alloc, trial, called, granted)? {
            return Ok(granted);
        }
    }
    Ok(MOST)
}

// Fails where the script's meaning, its run or its replay makes too few requests, or one that is refused isn't reported.
fn are_refused<S: Allocator>(alloc: Global, script: &Script<S>) -> Result<(), Fail> {
    let files = file_of(alloc, "p", b"p\n")?;
    let report = run_one(alloc, script, b"in", &files, TURNS)?;
    let trial = Trial {
        script,
        files: &files,
        events: report.schedule.as_slice(),
    };
    for called in ["meaning", "run", "replay"] {
        let refused = refusals(alloc, &trial, called)?;
        if refused <= 20 || MOST <= refused {
            return Err(Fail::from(called));
        }
    }
    Ok(())
}

#[test]
fn each_request_is_refused_in_turn(rt: HostRuntime) -> Result<(), Fail> {
    let arena = Bump::new(rt.alloc());
    let script = load(&arena, SCRIPT.as_bytes())?;
    are_refused(rt.alloc(), &script)
}
