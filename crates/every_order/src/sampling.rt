//! What a script leaves in some orders of its processes, found by running it: for scripts of which not every order can be tried.

ghost use Rattle.std.specs.Prelude.{◌≡◌, ◌≢◌, ◌↔◌, ◌⊎◌, ◌∷◌, ◌++◌, ◌<◌, ℕ, [], false, All, IfErr, IfOk, IfSome, IsTrue, OnOk, length, slice_index_or};
ghost use Rattle.std.specs.Option.{option_to_list};
ghost use Rattle.script_load.specs.Line.{lines_of};
ghost use Rattle.sh_machine.specs.Turn.{call_of, next_of};
ghost use Rattle.run_model.specs.ScriptRun.{script_kernel};
ghost use Rattle.order_search.specs.Told.{AreApart, IsReplayed, outcome_by};
ghost use Rattle.order_search.specs.declared.fault.ExploreFault.TheVariants.{Memory};

use crate::going_on::explore_after;
use kernel_events::Setting;
use kernel_model::{Event, Full};
use kernel_runs::{Order, RunOneFault, run_in_order};
use order_search::{Ahead, ExploreFault, Origin, Outcome, Unwatched};
use sh_machine::{Naming, User};
use std::alloc::{AllocError, Allocator, Global};
use std::marker::Brand;

/// How many runs are made (own).
pub const RUNS: usize = 64;

/// In how many turns a run has to end (own).
pub const MOST_TURNS: u64 = 20_000;

// Of so many processes each waits, in a run of its own, until no other can go on.
const STARVED: u8 = 16;

// The order of the run of this number: the kernel's, the lowest process first, the highest first, the same as long as it can; then
// those in which one process waits as long as it can; and then drawn ones.
fn order_of(number: usize) -> Order {
    let rest = u8::try_from(number).unwrap_or(u8::MAX);
    match rest {
        0 => Order::Kernel,
        1 => Order::Lowest,
        2 => Order::Highest,
        3 => Order::Eager,
        _ => {
            let slot = rest.saturating_sub(3);
            if slot <= STARVED {
                Order::Starving(slot)
            } else {
                Order::Drawn(u64::from(slot))
            }
        }
    }
}

// The processes that made a call, in their order.
fn turns_of(alloc: Global, events: &[Event]) -> Result<Vec<u8>, AllocError> {
    let mut pids = Vec::new(alloc);
    for event in events {
        if let Event::Trap(_, slot) = event {
            pids.push(u8::try_from(*slot).unwrap_or(u8::MAX))?;
        }
    }
    Ok(pids)
}

// What the run leaves in which these processes of the script that `N` names take their turns.
fn left_named<N: Naming, B: Allocator, C: Allocator>(
    alloc: Global,
    setting: &Setting<'_, B, C>,
    pids: &[u8],
) -> Result<Option<Outcome>, ExploreFault>
    requires { lines_of setting.now.script.now.lines ≡ N.script }
    ensures { IfOk result (λ outcome. IfSome outcome (IsReplayed call_of next_of (script_kernel setting.now.script.now.profile (lines_of setting.now.script.now.lines) setting.now.stdin.now setting.now.files.now))) }
{
    let origin = Origin {
        init: User::<B, N>::init(),
        shell: User::shell(setting.script),
        stdin: setting.stdin,
        files: setting.files,
        ahead: Ahead {
            entries: false,
            slots: false,
        },
        is_full: false,
    };
    let mut found = explore_after(alloc, &origin, pids, 1, &mut Unwatched)?;
    Ok(found.outcomes.pop())
}

// The same, whatever names the script.
fn left_after<B: Allocator, C: Allocator>(
    alloc: Global,
    setting: &Setting<'_, B, C>,
    pids: &[u8],
) -> Result<Option<Outcome>, ExploreFault>
    ensures { IfOk result (λ outcome. IfSome outcome (IsReplayed call_of next_of (script_kernel setting.now.script.now.profile (lines_of setting.now.script.now.lines) setting.now.stdin.now setting.now.files.now))) }
{
    left_named::<Brand, B, C>(alloc, setting, pids)
}

// What a run in this order leaves; nothing where it doesn't end in so many turns.
fn sample_of<B: Allocator, C: Allocator>(
    alloc: Global,
    setting: &Setting<'_, B, C>,
    order: Order,
) -> Result<Option<Outcome>, ExploreFault>
    ensures sound { IfOk result (λ outcome. IfSome outcome (IsReplayed call_of next_of (script_kernel setting.now.script.now.profile (lines_of setting.now.script.now.lines) setting.now.stdin.now setting.now.files.now))) }
    ensures fault { IfErr result (λ fault. fault ≡ Memory) }
{
    let (script, stdin, files) = (setting.script, setting.stdin, setting.files);
    let report = match run_in_order(alloc, script, stdin, files, MOST_TURNS, order) {
        Ok(report) => report,
        Err(RunOneFault::Memory) => return Err(ExploreFault::Memory),
        Err(RunOneFault::BadTurns | RunOneFault::Spent) => return Ok(None),
    };
    // where a call was refused memory, its process went another way than its turns lead
    if let Some(Full::Memory) = report.full {
        return Err(ExploreFault::Memory);
    }
    let Ok(pids) = turns_of(alloc, report.schedule.as_slice()) else {
        return Err(ExploreFault::Memory);
    };
    match left_after(alloc, setting, pids.as_slice()) {
        Ok(left) => Ok(left),
        Err(_) => Err(ExploreFault::Memory),
    }
}

// Whether both leave the same.
fn agree(one: &Outcome, other: &Outcome) -> bool
    ensures { IsTrue result ↔ (outcome_by one.now ≡ outcome_by other.now) }
{
    one.full == other.full
        && one.out.as_slice() == other.out.as_slice()
        && one.diag.as_slice() == other.diag.as_slice()
        && one.files.same(&other.files)
}

// Whether one of them leaves what this one leaves.
fn is_among(outcomes: &[Outcome], outcome: &Outcome) -> bool
    ensures { result ≡ false → (k : ℕ) (d : Outcome) → k < length outcomes.now → outcome_by (slice_index_or outcomes.now k d) ≢ outcome_by outcome.now }
{
    for known in outcomes {
        if agree(known, outcome) {
            return true;
        }
    }
    false
}

// Adds what a run leaves, unless one of the outcomes leaves that.
fn add_new(outcomes: &mut Vec<Outcome>, sample: Outcome) -> Result<(), AllocError>
    ensures added { OnOk result ((outcomes.new.items ≡ outcomes.old.items) ⊎ (outcomes.new.items ≡ outcomes.old.items ++ sample ∷ [])) }
    ensures apart { OnOk result (AreApart outcomes.old.items → AreApart outcomes.new.items) }
{
    if is_among(outcomes.as_slice(), &sample) {
        return Ok(());
    }
    outcomes.push(sample)?;
    Ok(())
}

// Adds what a run leaves, if it ended, and returns whether it did, as a number.
fn add_left(outcomes: &mut Vec<Outcome>, sample: Option<Outcome>) -> Result<usize, ExploreFault>
    ensures added { OnOk result ((outcomes.new.items ≡ outcomes.old.items) ⊎ (outcomes.new.items ≡ outcomes.old.items ++ option_to_list sample)) }
    ensures apart { OnOk result (AreApart outcomes.old.items → AreApart outcomes.new.items) }
    ensures fault { IfErr result (λ fault. fault ≡ Memory) }
{
    let Some(sample) = sample else {
        return Ok(0);
    };
    match add_new(outcomes, sample) {
        Ok(()) => Ok(1),
        Err(_) => Err(ExploreFault::Memory),
    }
}

/// Runs the script in `RUNS` orders, each in at most `MOST_TURNS` turns, adds what they leave to the outcomes, unless it is among
/// them, and returns how many of the runs ended (own).
///
/// Each outcome that is added is that of a finished run of the script by its own schedule, at which no memory was refused (`sound`),
/// and where no two outcomes were equal, none are (`apart`). The fault is `Memory` alone, where memory is refused, to a call of a process
/// too (`fault`).
pub fn add_samples<B: Allocator, C: Allocator>(
    alloc: Global,
    setting: &Setting<'_, B, C>,
    outcomes: &mut Vec<Outcome>,
) -> Result<usize, ExploreFault>
    ensures sound { OnOk result (All (IsReplayed call_of next_of (script_kernel setting.now.script.now.profile (lines_of setting.now.script.now.lines) setting.now.stdin.now setting.now.files.now)) outcomes.old.items → All (IsReplayed call_of next_of (script_kernel setting.now.script.now.profile (lines_of setting.now.script.now.lines) setting.now.stdin.now setting.now.files.now)) outcomes.new.items) }
    ensures apart { OnOk result (AreApart outcomes.old.items → AreApart outcomes.new.items) }
    ensures fault { IfErr result (λ fault. fault ≡ Memory) }
{
    let mut ended: usize = 0;
    for number in 0..RUNS {
        let sample = sample_of(alloc, setting, order_of(number))?;
        ended = ended.saturating_add(add_left(outcomes, sample)?);
    }
    Ok(ended)
}
