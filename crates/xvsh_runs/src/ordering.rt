//! The order of a run's turns that a request names.
ghost use Rattle.std.specs.Prelude.{IfErr};
ghost use Rattle.xvsh_runs.specs.Orders.{IsOrderFault};

use crate::fault::ProcessFault;
use crate::request::RunRequest;
use hart_run::Order;
use proc_table::PROCS;
use schedule_lines::number_of;

// The slot that is written so.
fn slot_of(text: &str) -> Option<u8> {
    let number = number_of(text.as_bytes())?;
    if number < PROCS as u64 {
        Some(number as u8)
    } else {
        None
    }
}

// The order that this word names.
fn named_order(word: &str) -> Option<Order> {
    match word {
        "low" => Some(Order::Lowest),
        "high" => Some(Order::Highest),
        "eager" => Some(Order::Eager),
        _ => {
            let slot = slot_of(word.strip_prefix("starve:")?)?;
            Some(Order::Starving(slot))
        }
    }
}

/// The order of the turns that the request asks for: the one of its word, or one that is drawn by its seed, or the kernel's own.
///
/// `BadOrder` of a word that names none.
pub(crate) fn order_of<'a>(request: &RunRequest<'a>) -> Result<Order, ProcessFault<'a>>
    ensures { IfErr result IsOrderFault }
{
    let Some(word) = request.order else {
        return match request.seed {
            Some(seed) => Ok(Order::Drawn(seed)),
            None => Ok(Order::Kernel),
        };
    };
    match named_order(word) {
        Some(order) => Ok(order),
        None => Err(ProcessFault::BadOrder(word)),
    }
}
