//! What is known of kernels after turns, without a search.

ghost use Rattle.std.specs.Prelude.{◌≡◌, IfOk, IfSome, Ok, true};
ghost use Rattle.order_search.specs.Led.{start_kernel};
ghost use Rattle.order_search.specs.Room.{HasAhead};
ghost use Rattle.order_search.specs.After.{AreAlikeAfter, GivesWayAfter};

use crate::fault::ExploreFault;
use crate::origin::Origin;
use crate::standing::{Standing, Tools};
use closed_search::Node;
use std::alloc::{Allocator, Global};
use user_calls::Machine;

/// Whether turns of these processes and turns of those were seen to lead to kernels that differ only in who sleeps, in the numbers of
/// open-file entries, in what pipes are called and in how many events there were. `false` is always right. Processes are named by their
/// slots.
///
/// The fault is `TooLong` where one of the turns can't be taken, and `Memory` where memory is refused, to a call of a process too.
pub fn are_alike<M: Machine, C: Allocator>(
    alloc: Global,
    origin: &Origin<'_, M, C>,
    pids: &[u8],
    others: &[u8],
) -> Result<bool, ExploreFault>
    requires { HasAhead M.call_of M.next_of origin.now.ahead (start_kernel (M.view origin.now.init) (M.view origin.now.shell) origin.now.stdin.now origin.now.files.now) }
    ensures { result ≡ Ok true → AreAlikeAfter M.call_of M.next_of (start_kernel (M.view origin.now.init) (M.view origin.now.shell) origin.now.stdin.now origin.now.files.now) pids.now others.now }
{
    let mut tools = Tools::new(alloc)?;
    let first = Standing::begin(&mut tools, origin, pids)?;
    let second = Standing::begin(&mut tools, origin, others)?;
    Ok(first.is_like(&second))
}

/// A process whose turn gives way to nobody's after turns of these processes, if one was found: of the runs that go on from there it is
/// enough to try those in which it goes first. `None` is always right.
///
/// The faults are those of `are_alike`.
pub fn only_after<M: Machine, C: Allocator>(
    alloc: Global,
    origin: &Origin<'_, M, C>,
    pids: &[u8],
) -> Result<Option<usize>, ExploreFault>
    requires { HasAhead M.call_of M.next_of origin.now.ahead (start_kernel (M.view origin.now.init) (M.view origin.now.shell) origin.now.stdin.now origin.now.files.now) }
    ensures { IfOk result (λ found. IfSome found (λ pid. GivesWayAfter M.call_of M.next_of (start_kernel (M.view origin.now.init) (M.view origin.now.shell) origin.now.stdin.now origin.now.files.now) pids.now pid)) }
{
    let mut tools = Tools::new(alloc)?;
    let node = Standing::begin(&mut tools, origin, pids)?;
    Ok(node.private_move())
}
