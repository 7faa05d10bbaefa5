//! Orders by their numbers.
ghost use Rattle.std.specs.Prelude.{◌≡◌};
ghost use Rattle.embed.specs.Orders.{order_by};

use hart_run::Order;

/// The order of this kind: 0 the kernel's, 1 drawn by the number as its seed, 2 the lowest slot, 3 the highest, 4 that which starves the
/// slot of the number, 0 to 63, and 5 the eager one. `None` where there is none.
pub fn order_by(kind: u32, number: u64) -> Option<Order>
    ensures { result ≡ order_by kind number }
{
    match kind {
        0 => Some(Order::Kernel),
        1 => Some(Order::Drawn(number)),
        2 => Some(Order::Lowest),
        3 => Some(Order::Highest),
        4 if number < 64 => Some(Order::Starving(number as u8)),
        5 => Some(Order::Eager),
        _ => None,
    }
}
