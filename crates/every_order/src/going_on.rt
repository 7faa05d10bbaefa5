//! Explorations of what can follow turns that were taken.

ghost use Rattle.std.specs.Prelude.{◌≡◌, ◌<◌, IfOk, false, true};
ghost use Rattle.kernel_model.specs.Boot.{boot_kernel};
ghost use Rattle.order_search.specs.Room.{HasAhead};
ghost use Rattle.every_order.specs.Rest.{TellsAfter};

use law_turns::every_outcome::{
    no_run_is_stuck_if_each_kernel_can_do_something, what_a_search_found_is_explored,
    what_was_explored_is_every_outcome,
};
use mem_files::laws::are_files;
use order_search::{Exploration, ExploreFault, Origin, Watch};
use std::alloc::{Allocator, Global};
use user_calls::Machine;

/// Tries the orders in which the processes of a kernel, whose programs are any machines, can go on after turns of these processes:
/// all orders, unless they lead to more than `states` states. Processes are named by their slots. `watch` gets reports as from
/// `explore_watched`, and may stop the search (`stopped`); where not every order was tried otherwise, more than `states` were found (`part`).
///
/// The schedule of each outcome is one from the kernel's boot. The fault is `TooLong` where one of the turns can't be taken, and
/// `Memory` where memory is refused, to a call of a process too.
pub fn explore_after<M: Machine, C: Allocator, W: Watch>(
    alloc: Global,
    origin: &Origin<'_, M, C>,
    pids: &[u8],
    states: usize,
    watch: &mut W,
) -> Result<Exploration, ExploreFault>
    requires { HasAhead M.call_of M.next_of origin.now.ahead (boot_kernel (M.view origin.now.init) (M.view origin.now.shell) origin.now.stdin.now origin.now.files.now) }
    ensures told { IfOk result (TellsAfter M.call_of M.next_of (boot_kernel (M.view origin.now.init) (M.view origin.now.shell) origin.now.stdin.now origin.now.files.now) pids.now) }
    ensures part { IfOk result (λ found. found.whole ≡ false → found.stopped ≡ false → states < found.states) }
    ensures stopped { IfOk result (λ found. found.stopped ≡ true → W.stopped watch.new) }
{
    are_files(origin.files);
    what_a_search_found_is_explored::<M>();
    what_was_explored_is_every_outcome::<M>();
    no_run_is_stuck_if_each_kernel_can_do_something::<M>();
    order_search::explore_after(alloc, origin, pids, states, watch)
}
