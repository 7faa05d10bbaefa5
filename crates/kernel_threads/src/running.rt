//! Runs of a script on harts that are threads.

ghost use Rattle.std.specs.Prelude.{◌≡◌, ◌≤◌, ◌↔◌, IfOk, Err, [], length};
ghost use Rattle.std.specs.Thread.{IsSend, IsSync};
ghost use Rattle.script_load.specs.Line.{lines_of};
ghost use Rattle.kernel_events.specs.Reports.{IsReport, IsRunFrom};
ghost use Rattle.run_model.specs.ScriptRun.{IsOutOfTurnsFrom, script_kernel};
ghost use Rattle.run_model.specs.Turns.{RunsOutOfTurns};
ghost use Rattle.kernel_threads.specs.Boots.{number_of};
ghost use Rattle.kernel_threads.specs.Events.{AreOfHarts};
ghost use Rattle.kernel_threads.specs.Ranges.{AreBadHarts, AreBadTurns};
ghost use Rattle.kernel_threads.specs.Reports.{IsFinishedFrom, IsSpentAfter};
ghost use Rattle.kernel_threads.specs.declared.faults.RunFault.TheVariants.{BadHarts, BadTurns, Spent};

use crate::faults::{RunFault, range_fault};
use crate::gates::Gate;
use crate::locked::Verdict;
use crate::naming::Run;
use crate::pace::Pace;
use crate::patience::Patience;
use crate::seats::Seat;
use crate::sharing::{Shared, Turn};
use kernel_events::{Kernel, Report, Setting};
use mem_files::Files;
use script_load::Script;
use sh_machine::{Naming, User};
use std::alloc::{AllocError, Global};
use std::marker::Brand;
use std::sync::Wait;
use std::sync::atomic::{AtomicBool, Ordering};
use std::sync::ledger::Blank;
use std::thread;
use std::thread::Threads;
use std::time::Clock;
use user_calls::Machine;

// One turn of the hart of the seat, or many where the kernel can be kept for them; what the last came to.
fn take_some<N: Run, M: Machine, R: Wait + Clock, G: Gate>(
    rt: &R,
    shared: &Shared<N, M>,
    seat: &mut Seat<N>,
    gate: &G,
    pace: &mut Pace,
) -> Result<Turn, AllocError> {
    if gate.is_open() && pace.is_quick() {
        return shared.tick(rt, seat, pace);
    }
    pace.counts();
    shared.turn(rt, seat, gate)
}

// The hart of the seat takes turns until there are none to take.
fn take_turns<N: Run, M: Machine, R: Wait + Clock, G: Gate>(
    rt: &R,
    shared: &Shared<N, M>,
    seat: &mut Seat<N>,
    gate: &G,
) -> Result<(), AllocError> {
    let mut pace = Pace::new();
    let mut patience = Patience::new();
    for _ in rt.forever() {
        match take_some(rt, shared, seat, gate, &mut pace)? {
            Turn::Finished | Turn::Spent => return Ok(()),
            Turn::Stepped => patience.ends(),
            _ => patience.wait(rt),
        }
    }
    unreachable!()
}

// The same, and notes where memory was refused.
fn work<N: Run, M: Machine, R: Wait + Clock, G: Gate>(
    rt: &R,
    shared: &Shared<N, M>,
    seat: &mut Seat<N>,
    gate: &G,
    starved: &AtomicBool,
) {
    if take_turns(rt, shared, seat, gate).is_err() {
        starved.store(true, Ordering::SeqCst);
    }
}

// The first hart takes turns alone, for a tick at most. It returns whether there are none to take any more, since the run is
// over or memory was refused.
fn begins_alone<N: Run, M: Machine, R: Wait + Clock, G: Gate>(
    rt: &R,
    shared: &Shared<N, M>,
    seat: &mut Seat<N>,
    gate: &G,
    starved: &AtomicBool,
) -> bool {
    if !gate.is_open() {
        return false;
    }
    match shared.tick(rt, seat, &mut Pace::new()) {
        Ok(turn) => matches!(turn, Turn::Finished | Turn::Spent),
        Err(_) => {
            starved.store(true, Ordering::SeqCst);
            true
        }
    }
}

// The harts of all seats take turns until there are none to take, the first on this thread and each other on a thread of
// its own; one whose thread can't be made takes none. A run that is over within a tick makes no thread. It returns whether
// memory was refused to one of them.
fn take_all_turns<
    N: Run + Send + Sync,
    M: Machine + Send,
    R: Threads + Wait + Clock + Sync,
    G: Gate + Sync,
>(rt: &R, shared: &Shared<N, M>, seats: &mut [Seat<N>], gate: &G) -> bool {
    let refused = AtomicBool::new(false);
    let starved = &refused;
    thread::scope(
        thread::scope_env(),
        rt,
        |scope|
            requires { IsSend N.row × IsSync N.row × IsSend M.row × IsSync R.row × IsSync G.row }
        {
            if let Some((first, rest)) = seats.split_first_mut() {
                if begins_alone(rt, shared, first, gate, starved) {
                    return;
                }
                for seat in rest.iter_mut() {
                    let _ = scope.spawn(move || work(rt, shared, seat, gate, starved));
                }
                work(rt, shared, first, gate, starved);
            }
        },
    );
    refused.into_inner()
}

// The harts take turns until the run is finished or can't go on.
fn run_shared<
    N: Run + Send + Sync,
    M: Machine + Send,
    R: Threads + Wait + Clock + Sync,
    G: Gate + Sync,
>(
    rt: &R,
    mut shared: Shared<N, M>,
    mut seats: Vec<Seat<N>>,
    gate: &G,
) -> Result<Report<Global>, RunFault>
    ensures run { IfOk result (IsFinishedFrom M.code M.call_of M.next_of N.boot) }
    ensures harts { IfOk result (λ report. AreOfHarts N.harts report.schedule) }
    ensures turns { IfOk result (λ report. length report.schedule ≤ N.turns) }
    ensures in_range { (result ≡ Err BadHarts → ⊥) × (result ≡ Err BadTurns → ⊥) }
    ensures spent { result ≡ Err Spent → IsSpentAfter M.code M.call_of M.next_of N.boot N.turns }
{
    for _ in rt.forever() {
        let starved = take_all_turns(rt, &shared, seats.as_mut_slice(), gate);
        let locked = shared.into_locked();
        match locked.verdict(starved) {
            Verdict::Finished => return Ok(locked.into_report()),
            Verdict::Spent => {
                locked.is_run();
                return Err(RunFault::Spent);
            }
            Verdict::Starved => return Err(RunFault::Memory),
            Verdict::GoesOn => shared = Shared::of(locked),
        }
    }
    unreachable!()
}

// How a run goes: on so many harts, in at most so many turns, through this gate.
#[derive(Drop)]
struct Way<'g, G> {
    harts: u8,
    turns: u64,
    gate: &'g G,
}

// The run of a kernel in which nothing has happened, which `N` names.
fn run_as<
    N: Run + Send + Sync,
    M: Machine + Send,
    R: Threads + Wait + Clock + Sync,
    G: Gate + Sync,
>(
    rt: &R,
    alloc: Global,
    blank: Blank,
    kernel: Kernel<M, Global>,
    way: Way<'_, G>,
) -> Result<Report<Global>, RunFault>
    requires name { blank.name ≡ N.name }
    requires parts { (blank.parts ≡ N.parts) × (N.parts ≡ way.harts) }
    requires harts { way.harts ≡ N.harts }
    requires turns { way.turns ≡ N.turns }
    requires boot { number_of M.code kernel.boot ≡ N.boot }
    requires fresh { kernel.schedule ≡ [] }
    ensures run { IfOk result (IsFinishedFrom M.code M.call_of M.next_of N.boot) }
    ensures harts { IfOk result (λ report. AreOfHarts N.harts report.schedule) }
    ensures turns { IfOk result (λ report. length report.schedule ≤ N.turns) }
    ensures bad_harts { result ≡ Err BadHarts → AreBadHarts way.entry.harts }
    ensures bad_turns { result ≡ Err BadTurns → AreBadTurns way.entry.turns }
    ensures spent { result ≡ Err Spent → IsSpentAfter M.code M.call_of M.next_of N.boot N.turns }
{
    match Shared::<N, M>::start(alloc, blank, kernel, way.harts, way.turns) {
        Ok((shared, seats)) => run_shared(rt, shared, seats, way.gate),
        Err(fault) => Err(fault),
    }
}

// The run of a kernel in which nothing has happened.
fn run_kernel<M: Machine + Send, R: Threads + Wait + Clock + Sync, G: Gate + Sync>(
    rt: &R,
    alloc: Global,
    kernel: Kernel<M, Global>,
    way: Way<'_, G>,
) -> Result<Report<Global>, RunFault>
    requires { kernel.schedule ≡ [] }
    ensures run { IfOk result (IsReport M.call_of M.next_of kernel.boot) }
    ensures harts { IfOk result (λ report. AreOfHarts way.entry.harts report.schedule) }
    ensures turns { IfOk result (λ report. length report.schedule ≤ way.entry.turns) }
    ensures bad_harts { result ≡ Err BadHarts → AreBadHarts way.entry.harts }
    ensures bad_turns { result ≡ Err BadTurns → AreBadTurns way.entry.turns }
    ensures spent { result ≡ Err Spent → RunsOutOfTurns M.call_of M.next_of kernel.boot way.entry.turns }
{
    run_as::<Brand, M, R, G>(rt, alloc, Blank::new(way.harts as u64), kernel, way)
}

// The run of the script that `N` names.
fn run_named<N: Naming + Send + Sync, R: Threads + Wait + Clock + Sync, G: Gate + Sync>(
    rt: &R,
    alloc: Global,
    setting: &Setting<'_, Global, Global>,
    way: Way<'_, G>,
) -> Result<Report<Global>, RunFault>
    requires { lines_of setting.now.script.now.lines ≡ N.script }
    ensures run { IfOk result (IsRunFrom (script_kernel setting.now.script.now.profile (lines_of setting.now.script.now.lines) setting.now.stdin.now setting.now.files.now)) }
    ensures harts { IfOk result (λ report. AreOfHarts way.entry.harts report.schedule) }
    ensures turns { IfOk result (λ report. length report.schedule ≤ way.entry.turns) }
    ensures bad_harts { result ≡ Err BadHarts → AreBadHarts way.entry.harts }
    ensures bad_turns { result ≡ Err BadTurns → AreBadTurns way.entry.turns }
    ensures spent { result ≡ Err Spent → IsOutOfTurnsFrom (script_kernel setting.now.script.now.profile (lines_of setting.now.script.now.lines) setting.now.stdin.now setting.now.files.now) way.entry.turns }
{
    let init = User::<Global, N>::init();
    let shell = User::shell(setting.script);
    let Ok(kernel) = Kernel::boot(alloc, init, shell, setting.stdin, setting.files) else {
        return Err(RunFault::Memory);
    };
    run_kernel(rt, alloc, kernel, way)
}

/// Runs a script by its processes on so many harts, with this standard input and these files, in at most `turns` turns. Each
/// event takes one turn. Init and the top shell begin, and the run is finished once only init is left.
///
/// Hart 0 is the calling thread, and each other hart a thread of its own; a hart whose thread can't be made takes no turns.
/// Which process a hart takes next depends on the threads. Every thread has ended when this returns; a hart that finds nothing
/// to do sleeps for up to a millisecond before it looks again.
///
/// The faults come in their order. A refused growth inside a call is answered to its process and marked in the report;
/// elsewhere it is the fault `Memory`, unless the other harts finish the run.
pub fn run_harts<R: Threads + Wait + Clock + Sync, G: Gate + Sync>(
    rt: &R,
    alloc: Global,
    script: &Script<Global>,
    stdin: &[u8],
    files: &Files<Global>,
    harts: u8,
    turns: u64,
    gate: &G,
) -> Result<Report<Global>, RunFault>
    ensures run { IfOk result (IsRunFrom (script_kernel script.now.profile (lines_of script.now.lines) stdin.now files.now)) }
    ensures harts { IfOk result (λ report. AreOfHarts harts report.schedule) }
    ensures turns { IfOk result (λ report. length report.schedule ≤ turns) }
    ensures bad_harts { (result ≡ Err BadHarts) ↔ AreBadHarts harts }
    ensures bad_turns { (result ≡ Err BadTurns) ↔ ((AreBadHarts harts → ⊥) × AreBadTurns turns) }
    ensures spent { result ≡ Err Spent → IsOutOfTurnsFrom (script_kernel script.now.profile (lines_of script.now.lines) stdin.now files.now) turns }
{
    if let Some(fault) = range_fault(harts, turns) {
        return Err(fault);
    }
    let setting = Setting {
        script,
        stdin,
        files,
    };
    let way = Way { harts, turns, gate };
    run_named::<Brand, R, G>(rt, alloc, &setting, way)
}
