//! The ways in which a script is run.

use kernel_runs::Order;

/// How the processes of a script take their turns (own).
#[derive(Clone, Copy, Debug)]
pub enum Way {
    /// On one hart, in this order.
    InOrder(Order),
    /// On so many harts, each of which is a thread.
    OnHarts(u8),
}

/// The ways in which a script is run: in the kernel's order and in five that are unkind to some process, in three that are drawn,
/// and on one, two and eight harts (own).
pub const WAYS: [Way; 12] = [
    Way::InOrder(Order::Kernel),
    Way::InOrder(Order::Lowest),
    Way::InOrder(Order::Highest),
    Way::InOrder(Order::Eager),
    Way::InOrder(Order::Starving(1)),
    Way::InOrder(Order::Starving(2)),
    Way::InOrder(Order::Drawn(1)),
    Way::InOrder(Order::Drawn(2)),
    Way::InOrder(Order::Drawn(3)),
    Way::OnHarts(1),
    Way::OnHarts(2),
    Way::OnHarts(8),
];
