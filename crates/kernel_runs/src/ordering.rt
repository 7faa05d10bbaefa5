//! In which order the processes of a run on one hart take their turns.

use kernel_events::Kernel;
use proc_table::{PROCS, Pid, State};
use rand::RngExt;
use rand_pcg::Pcg32;
use std::alloc::Allocator;
use user_calls::Machine;

/// Which of the Runnable processes takes the next turn of a run on one hart (own).
#[derive(Clone, Copy, Debug, PartialEq, Eq)]
pub enum Order {
    /// The one that the kernel chooses, as in `run_one`.
    Kernel,
    /// Any of them, drawn evenly by the PCG generator of 32 bits that this number seeds: a number stands for one order, on
    /// every machine.
    Drawn(u64),
    /// The one in the lowest slot.
    Lowest,
    /// The one in the highest slot.
    Highest,
    /// The one in the lowest slot but this one, which waits until no other is Runnable.
    Starving(u8),
    /// The one that took the last turn, as long as it can, and then the one in the lowest slot.
    Eager,
}

// Chooses who takes the next turn.
#[derive(Drop)]
pub(crate) struct Chooser {
    order: Order,
    draws: Pcg32,
    last: usize,
}

impl Chooser {
    pub(crate) fn new(order: Order) -> Chooser {
        let seed = if let Order::Drawn(seed) = order {
            seed
        } else {
            0
        };
        Chooser {
            order,
            draws: Pcg32::new(seed, STREAM),
            last: 0,
        }
    }

    // The slot of the process that is to take the next turn; `None` where the kernel chooses.
    pub(crate) fn choose<M: Machine, A: Allocator>(
        &mut self,
        kernel: &Kernel<M, A>,
    ) -> Option<usize> {
        match self.order {
            Order::Kernel => None,
            Order::Drawn(_) => self.draw(kernel),
            Order::Lowest => runnable_at(kernel, 0),
            Order::Highest => runnable_at(kernel, kernel.runnable().saturating_sub(1)),
            Order::Starving(slot) => runnable_but(kernel, usize::from(slot)),
            Order::Eager => self.go_on(kernel),
        }
    }

    // One that is drawn.
    fn draw<M: Machine, A: Allocator>(&mut self, kernel: &Kernel<M, A>) -> Option<usize> {
        let count = kernel.runnable();
        if count == 0 {
            return None;
        }
        let place = self.draws.random_range(0..count);
        runnable_at(kernel, place)
    }

    // The one that took the last turn, or the lowest.
    fn go_on<M: Machine, A: Allocator>(&mut self, kernel: &Kernel<M, A>) -> Option<usize> {
        if !is_runnable(kernel, self.last) {
            self.last = runnable_at(kernel, 0)?;
        }
        Some(self.last)
    }
}

// The stream of the generator.
const STREAM: u64 = 54;

// Whether the process in the slot of this number is Runnable.
fn is_runnable<M: Machine, A: Allocator>(kernel: &Kernel<M, A>, slot: usize) -> bool {
    match Pid::new(slot) {
        Some(pid) => kernel.state(pid) == State::Runnable,
        None => false,
    }
}

// The slot of the Runnable process before which there are so many in lower slots.
fn runnable_at<M: Machine, A: Allocator>(kernel: &Kernel<M, A>, place: usize) -> Option<usize> {
    (0..PROCS)
        .filter(|slot| is_runnable(kernel, *slot))
        .nth(place)
}

// The lowest slot of a Runnable process, but for this slot where there is another.
fn runnable_but<M: Machine, A: Allocator>(kernel: &Kernel<M, A>, slot: usize) -> Option<usize> {
    match runnable_at(kernel, 0) {
        Some(lowest) if lowest == slot => runnable_at(kernel, 1).or(Some(slot)),
        lowest => lowest,
    }
}
