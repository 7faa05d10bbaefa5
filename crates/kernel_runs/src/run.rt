//! Runs of a script on one hart.

ghost use Rattle.std.specs.Prelude.{◌≡◌, ◌≤◌, ◌<◌, ◌⊎◌, ◌↔◌, All, IfOk, OnErr, OnOk, Err, Ok, [], count_by, length, false, true};
ghost use Rattle.proc_table.specs.Slots.{is_runnable, is_running};
ghost use Rattle.script_load.specs.declared.limits.TheConstants.{MAX_TURNS};
ghost use Rattle.script_load.specs.Line.{lines_of};
ghost use Rattle.kernel_model.specs.Events.{IsFinished};
ghost use Rattle.kernel_model.specs.History.{Steps};
ghost use Rattle.kernel_events.specs.Harts.{is_of_hart};
ghost use Rattle.kernel_events.specs.Reports.{IsReport};
ghost use Rattle.kernel_events.specs.Reports.{IsRunFrom};
ghost use Rattle.run_model.specs.ScriptRun.{IsSpentFrom, script_kernel};
ghost use Rattle.run_model.specs.Turns.{IsSpent, IsSpentBy};

use crate::ordering::{Chooser, Order};
use kernel_events::{Kernel, Report, Setting};
use mem_files::Files;
use script_load::{MAX_TURNS, Script};
use sh_machine::{Naming, User};
use std::alloc::{AllocError, Allocator};
use std::marker::Brand;
use thiserror::Error;
use user_calls::Machine;

/// Why a run gives no report.
#[derive(Clone, Copy, Debug, PartialEq, Eq, Error)]
pub enum RunOneFault {
    /// Fault 1: no turns, or more than 1,000,000,000.
    #[error("the number of turns is out of range")]
    BadTurns,
    /// Fault 2: the run isn't finished, and fewer than two turns are left or nothing is Runnable.
    #[error("the turns are spent")]
    Spent,
    /// Fault 3: memory was refused outside of a system call, so no process can be answered `Refused`.
    #[error("no memory")]
    Memory,
}

impl From<AllocError> for RunOneFault {
    ghost use Rattle.kernel_runs.specs.declared.run.RunOneFault.TheVariants.{Memory};

    ghost from_gives = { λ _ fault. fault ≡ Memory };

    fn from(_error: AllocError) -> RunOneFault {
        RunOneFault::Memory
    }
}

/// Runs a script by its processes on hart 0, with this standard input and these files, in at most `turns` turns. Each event
/// takes one turn. Init and the top shell begin, and the run is finished once only init is left.
///
/// Which Runnable process gets a turn is the kernel's choice. A refused growth inside a call is answered to its process and
/// marked in the report; elsewhere it is the fault `Memory`.
pub fn run_one<A: Allocator + Copy, B: Allocator, C: Allocator>(
    alloc: A,
    script: &Script<B>,
    stdin: &[u8],
    files: &Files<C>,
    turns: u64,
) -> Result<Report<A>, RunOneFault>
    ensures run { IfOk result (IsRunFrom (script_kernel script.now.profile (lines_of script.now.lines) stdin.now files.now)) }
    ensures hart { IfOk result (λ report. All (λ event. is_of_hart 0 event ≡ true) report.schedule) }
    ensures turns { IfOk result (λ report. length report.schedule ≤ turns) }
    ensures bad_turns { (result ≡ Err RunOneFault.BadTurns) ↔ ((turns ≡ 0) ⊎ (MAX_TURNS < turns)) }
    ensures spent { result ≡ Err RunOneFault.Spent → IsSpentFrom (script_kernel script.now.profile (lines_of script.now.lines) stdin.now files.now) turns }
{
    run_in_order(alloc, script, stdin, files, turns, Order::Kernel)
}

/// The same in this order, whatever it is.
pub fn run_in_order<A: Allocator + Copy, B: Allocator, C: Allocator>(
    alloc: A,
    script: &Script<B>,
    stdin: &[u8],
    files: &Files<C>,
    turns: u64,
    order: Order,
) -> Result<Report<A>, RunOneFault>
    ensures run { IfOk result (IsRunFrom (script_kernel script.now.profile (lines_of script.now.lines) stdin.now files.now)) }
    ensures hart { IfOk result (λ report. All (λ event. is_of_hart 0 event ≡ true) report.schedule) }
    ensures turns { IfOk result (λ report. length report.schedule ≤ turns) }
    ensures bad_turns { (result ≡ Err RunOneFault.BadTurns) ↔ ((turns ≡ 0) ⊎ (MAX_TURNS < turns)) }
    ensures spent { result ≡ Err RunOneFault.Spent → IsSpentFrom (script_kernel script.now.profile (lines_of script.now.lines) stdin.now files.now) turns }
{
    if turns == 0 || MAX_TURNS < turns {
        return Err(RunOneFault::BadTurns);
    }
    let setting = Setting {
        script,
        stdin,
        files,
    };
    run_named::<Brand, A, B, C>(alloc, &setting, turns, order)
}

// The run of the script that `N` names.
fn run_named<N: Naming, A: Allocator + Copy, B: Allocator, C: Allocator>(
    alloc: A,
    setting: &Setting<'_, B, C>,
    turns: u64,
    order: Order,
) -> Result<Report<A>, RunOneFault>
    requires { lines_of setting.now.script.now.lines ≡ N.script }
    ensures run { IfOk result (IsRunFrom (script_kernel setting.now.script.now.profile (lines_of setting.now.script.now.lines) setting.now.stdin.now setting.now.files.now)) }
    ensures hart { IfOk result (λ report. All (λ event. is_of_hart 0 event ≡ true) report.schedule) }
    ensures turns { IfOk result (λ report. length report.schedule ≤ turns) }
    ensures bad_turns { result ≡ Err RunOneFault.BadTurns → ⊥ }
    ensures spent { result ≡ Err RunOneFault.Spent → IsSpentFrom (script_kernel setting.now.script.now.profile (lines_of setting.now.script.now.lines) setting.now.stdin.now setting.now.files.now) turns }
{
    let init = User::<B, N>::init();
    let shell = User::shell(setting.script);
    let kernel = Kernel::boot(alloc, init, shell, setting.stdin, setting.files)?;
    run_kernel(kernel, turns, order)
}

// Takes turns on hart 0 in this order until only init is left, and gives the report.
fn run_kernel<M: Machine, A: Allocator + Copy>(
    mut kernel: Kernel<M, A>,
    turns: u64,
    order: Order,
) -> Result<Report<A>, RunOneFault>
    requires idle { count_by is_running kernel.now.table ≡ 0 }
    requires fresh { kernel.schedule ≡ [] }
    ensures run { IfOk result (IsReport M.call_of M.next_of kernel.boot) }
    ensures hart { IfOk result (λ report. All (λ event. is_of_hart 0 event ≡ true) report.schedule) }
    ensures turns { IfOk result (λ report. length report.schedule ≤ turns) }
    ensures bad_turns { result ≡ Err RunOneFault.BadTurns → ⊥ }
    ensures spent { result ≡ Err RunOneFault.Spent → IsSpentBy M.call_of M.next_of kernel.boot turns }
{
    let mut chooser = Chooser::new(order);
    let taken = take_turns(&mut kernel, turns, &mut chooser);
    kernel.replays();
    match taken {
        Ok(()) => Ok(kernel.into_report()),
        Err(fault) => Err(fault),
    }
}

// The process in this slot takes a turn on hart 0, if one is chosen, and it can. It returns whether it did.
fn take_chosen<M: Machine, A: Allocator + Copy>(
    kernel: &mut Kernel<M, A>,
    chosen: Option<usize>,
) -> Result<bool, AllocError>
    ensures same { result ≡ Ok false → kernel.new ≡ kernel.old }
    ensures err { OnErr result (kernel.new ≡ kernel.old) }
    ensures events { result ≡ Ok true → Steps M.call_of M.next_of kernel.old 0 kernel.new }
    ensures running { OnOk result (count_by is_running kernel.new.now.table ≡ count_by is_running kernel.old.now.table) }
{
    match chosen {
        Some(slot) => kernel.step_pid(0, slot),
        None => Ok(false),
    }
}

// The process in this slot takes a turn on hart 0; where none is chosen, or it can't, the one that the kernel chooses. It returns
// whether one took a turn.
fn take_turn<M: Machine, A: Allocator + Copy>(
    kernel: &mut Kernel<M, A>,
    chosen: Option<usize>,
) -> Result<bool, AllocError>
    requires idle { count_by is_running kernel.old.now.table ≡ 0 }
    ensures none { result ≡ Ok false → All (λ slot. is_runnable slot ≡ false) kernel.old.now.table }
    ensures same { result ≡ Ok false → kernel.new ≡ kernel.old }
    ensures err { OnErr result (kernel.new ≡ kernel.old) }
    ensures events { result ≡ Ok true → Steps M.call_of M.next_of kernel.old 0 kernel.new }
    ensures running { OnOk result (count_by is_running kernel.new.now.table ≡ count_by is_running kernel.old.now.table) }
{
    if take_chosen(kernel, chosen)? {
        return Ok(true);
    }
    kernel.step(0)
}

// Takes turns on hart 0, each by the process that is chosen, until only init is left.
fn take_turns<M: Machine, A: Allocator + Copy>(
    kernel: &mut Kernel<M, A>,
    turns: u64,
    chooser: &mut Chooser,
) -> Result<(), RunOneFault>
    requires idle { count_by is_running kernel.old.now.table ≡ 0 }
    requires fresh { kernel.old.schedule ≡ [] }
    ensures boot { kernel.new.boot ≡ kernel.old.boot }
    ensures finished { OnOk result (IsFinished kernel.new.now) }
    ensures hart { All (λ event. is_of_hart 0 event ≡ true) kernel.new.schedule }
    ensures turns { length kernel.new.schedule ≤ turns }
    ensures bad_turns { result ≡ Err RunOneFault.BadTurns → ⊥ }
    ensures spent { result ≡ Err RunOneFault.Spent → IsSpent turns kernel.new.now kernel.new.schedule }
{
    for _turn in 0..turns / 2 {
        if kernel.is_finished() {
            return Ok(());
        }
        let chosen = chooser.choose(kernel);
        if !take_turn(kernel, chosen)? {
            return Err(RunOneFault::Spent);
        }
    }
    if kernel.is_finished() {
        Ok(())
    } else {
        Err(RunOneFault::Spent)
    }
}
