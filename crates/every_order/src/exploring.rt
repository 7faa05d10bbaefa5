//! Explorations of scripts.

ghost use Rattle.std.specs.Prelude.{◌≡◌, ◌<◌, IfOk, IfSome, None, All, map, true, false};
ghost use Rattle.script_load.specs.Line.{lines_of};
ghost use Rattle.sh_machine.specs.Turn.{call_of, next_of};
ghost use Rattle.kernel_model.specs.Boot.{boot_kernel};
ghost use Rattle.sh_machine.specs.View.{user_of};
ghost use Rattle.order_search.specs.Room.{HasAhead};
ghost use Rattle.run_model.specs.ScriptRun.{script_kernel};
ghost use Rattle.kernel_model.specs.Explored.{AreAllOutcomes, IsNeverStuck};
ghost use Rattle.order_search.specs.Told.{outcome_by, IsReplayed, AreApart, LeadsToSleep};

use kernel_events::Setting;
use law_limits::forks::a_script_of_few_forks_has_slots_ahead;
use law_limits::opens::a_script_of_few_opens_has_room_ahead;
use law_turns::every_outcome::{
    a_script_begins_at_a_boot, no_run_is_stuck_if_each_kernel_can_do_something,
    what_a_search_found_is_explored, what_was_explored_is_every_outcome,
};
use mem_files::Files;
use mem_files::laws::are_files;
use order_search::{Ahead, Exploration, ExploreFault, Origin, Unwatched, Watch, explore_from};
use room_bounds::has_few_opens;
use room_model::has_few_forks;
use script_load::Script;
use sh_machine::{Naming, User};
use std::alloc::{Allocator, Global};
use std::marker::Brand;

/// How much of a script's runs is tried.
#[derive(Clone, Copy, Debug)]
pub struct Extent {
    /// The most states to keep.
    pub states: usize,
    /// Whether every turn is tried in every state. What is found is the same without, of fewer states: there a turn that gives way to
    /// nobody's is taken at once, and no other one is tried (own).
    pub is_full: bool,
}

/// Tries the orders in which the processes of a script can take their turns, with this standard input and these files: all
/// orders, unless they lead to more than `states` states.
///
/// Each outcome that is reported is that of a finished run of the script by its own schedule, at which no memory was refused
/// (`sound`); no two are equal (`apart`). Where every order was tried, the outcomes are those of all finished runs of the
/// script, in any order and on any harts, at which memory was never refused or nothing was full (`complete`), and where nobody
/// was stuck no such run comes to where all processes sleep (`awake`); where somebody was, these turns lead there (`asleep`). Where not
/// every order was tried, more than `states` states were found (`part`). The fault is `Memory` where memory is refused, to a call of a process too.
pub fn explore<B: Allocator, C: Allocator>(
    alloc: Global,
    script: &Script<B>,
    stdin: &[u8],
    files: &Files<C>,
    states: usize,
) -> Result<Exploration, ExploreFault>
    ensures sound { IfOk result (λ found. All (IsReplayed call_of next_of (script_kernel script.now.profile (lines_of script.now.lines) stdin.now files.now)) found.outcomes.items) }
    ensures apart { IfOk result (λ found. AreApart found.outcomes.items) }
    ensures complete { IfOk result (λ found. found.whole ≡ true → AreAllOutcomes call_of next_of (script_kernel script.now.profile (lines_of script.now.lines) stdin.now files.now) (map outcome_by found.outcomes.items)) }
    ensures awake { IfOk result (λ found. found.whole ≡ true → found.stuck ≡ None → IsNeverStuck call_of next_of (script_kernel script.now.profile (lines_of script.now.lines) stdin.now files.now)) }
    ensures asleep { IfOk result (λ found. IfSome found.stuck (λ pids. LeadsToSleep call_of next_of (script_kernel script.now.profile (lines_of script.now.lines) stdin.now files.now) pids.items)) }
    ensures part { IfOk result (λ found. found.whole ≡ false → states < found.states) }
{
    let setting = Setting {
        script,
        stdin,
        files,
    };
    let extent = Extent {
        states,
        is_full: false,
    };
    explore_watched(alloc, &setting, extent, &mut Unwatched)
}

/// `explore`, which reports to `watch` how many states it found, each time before it tries the turns of one more, and stops where the watch
/// says so (`stopped`).
pub fn explore_watched<B: Allocator, C: Allocator, W: Watch>(
    alloc: Global,
    setting: &Setting<'_, B, C>,
    extent: Extent,
    watch: &mut W,
) -> Result<Exploration, ExploreFault>
    ensures sound { IfOk result (λ found. All (IsReplayed call_of next_of (script_kernel setting.now.script.now.profile (lines_of setting.now.script.now.lines) setting.now.stdin.now setting.now.files.now)) found.outcomes.items) }
    ensures apart { IfOk result (λ found. AreApart found.outcomes.items) }
    ensures complete { IfOk result (λ found. found.whole ≡ true → AreAllOutcomes call_of next_of (script_kernel setting.now.script.now.profile (lines_of setting.now.script.now.lines) setting.now.stdin.now setting.now.files.now) (map outcome_by found.outcomes.items)) }
    ensures awake { IfOk result (λ found. found.whole ≡ true → found.stuck ≡ None → IsNeverStuck call_of next_of (script_kernel setting.now.script.now.profile (lines_of setting.now.script.now.lines) setting.now.stdin.now setting.now.files.now)) }
    ensures asleep { IfOk result (λ found. IfSome found.stuck (λ pids. LeadsToSleep call_of next_of (script_kernel setting.now.script.now.profile (lines_of setting.now.script.now.lines) setting.now.stdin.now setting.now.files.now) pids.items)) }
    ensures part { IfOk result (λ found. found.whole ≡ false → found.stopped ≡ false → extent.states < found.states) }
    ensures stopped { IfOk result (λ found. found.stopped ≡ true → W.stopped watch.new) }
{
    explore_named::<Brand, B, C, W>(alloc, setting, extent, watch)
}

/// Where the runs of the script that `N` names begin: its first two machines, and what is known to be free ahead, by bounds of what the
/// script opens and forks. `is_full` is that of an `Extent`.
pub fn origin_of<'a, N: Naming, B: Allocator, C: Allocator>(
    setting: &Setting<'a, B, C>,
    is_full: bool,
) -> Origin<'a, User<'a, B, N>, C>
    requires { lines_of setting.now.script.now.lines ≡ N.script }
    ensures begins { boot_kernel (user_of result.init) (user_of result.shell) result.stdin.now result.files.now ≡ script_kernel setting.now.script.now.profile (lines_of setting.now.script.now.lines) setting.now.stdin.now setting.now.files.now }
    ensures ahead { HasAhead call_of next_of result.ahead (boot_kernel (user_of result.init) (user_of result.shell) result.stdin.now result.files.now) }
{
    are_files(setting.files);
    a_script_of_few_opens_has_room_ahead();
    a_script_of_few_forks_has_slots_ahead();
    Origin {
        init: User::<B, N>::init(),
        shell: User::shell(setting.script),
        stdin: setting.stdin,
        files: setting.files,
        ahead: Ahead {
            entries: has_few_opens(setting.script),
            slots: has_few_forks(setting.script),
        },
        is_full,
    }
}

// Explores the script that `N` names.
fn explore_named<N: Naming, B: Allocator, C: Allocator, W: Watch>(
    alloc: Global,
    setting: &Setting<'_, B, C>,
    extent: Extent,
    watch: &mut W,
) -> Result<Exploration, ExploreFault>
    requires { lines_of setting.now.script.now.lines ≡ N.script }
    ensures sound { IfOk result (λ found. All (IsReplayed call_of next_of (script_kernel setting.now.script.now.profile (lines_of setting.now.script.now.lines) setting.now.stdin.now setting.now.files.now)) found.outcomes.items) }
    ensures apart { IfOk result (λ found. AreApart found.outcomes.items) }
    ensures complete { IfOk result (λ found. found.whole ≡ true → AreAllOutcomes call_of next_of (script_kernel setting.now.script.now.profile (lines_of setting.now.script.now.lines) setting.now.stdin.now setting.now.files.now) (map outcome_by found.outcomes.items)) }
    ensures awake { IfOk result (λ found. found.whole ≡ true → found.stuck ≡ None → IsNeverStuck call_of next_of (script_kernel setting.now.script.now.profile (lines_of setting.now.script.now.lines) setting.now.stdin.now setting.now.files.now)) }
    ensures asleep { IfOk result (λ found. IfSome found.stuck (λ pids. LeadsToSleep call_of next_of (script_kernel setting.now.script.now.profile (lines_of setting.now.script.now.lines) setting.now.stdin.now setting.now.files.now) pids.items)) }
    ensures part { IfOk result (λ found. found.whole ≡ false → found.stopped ≡ false → extent.states < found.states) }
    ensures stopped { IfOk result (λ found. found.stopped ≡ true → W.stopped watch.new) }
{
    are_files(setting.files);
    a_script_begins_at_a_boot();
    what_a_search_found_is_explored::<User<B, N>>();
    what_was_explored_is_every_outcome::<User<B, N>>();
    no_run_is_stuck_if_each_kernel_can_do_something::<User<B, N>>();
    let origin = origin_of::<N, B, C>(setting, extent.is_full);
    explore_from(alloc, &origin, extent.states, watch)
}
