//! Events to lines.

ghost use Rattle.std.specs.Prelude.{◌≡◌, ◌++◌, ◌∷◌, All, IfOk, OnOk, []};
ghost use Rattle.schedule_lines.specs.EventLines.{numbers_text, event_text, schedule_text, IsHeld};

use kernel_model::Event;
use std::alloc::{AllocError, Global};

// Adds the letter of an event, its two numbers and LF.
fn add_line(
    alloc: Global,
    letter: u8,
    hart: u8,
    pid: u32,
    text: &mut Vec<u8>,
) -> Result<(), AllocError>
    ensures { OnOk result (text.new.items ≡ text.old.items ++ letter ∷ 32 ∷ (numbers_text hart pid ++ 10 ∷ [])) }
{
    let numbers = format!(in alloc; "{hart} {pid}\n")?;
    text.push(letter)?;
    text.push(b' ')?;
    text.extend_from_slice(numbers.as_bytes())
}

// Adds the line of an event.
fn add_event(alloc: Global, event: Event, text: &mut Vec<u8>) -> Result<(), AllocError>
    ensures text { OnOk result (text.new.items ≡ text.old.items ++ event_text event ++ 10 ∷ []) }
    ensures held { IsHeld event }
{
    match event {
        Event::Dispatch(hart, pid) => add_line(alloc, b'D', hart, pid, text),
        Event::Trap(hart, pid) => add_line(alloc, b'T', hart, pid, text),
    }
}

/// The events in order, a line each: `D h pid` for a dispatch of the process to the hart, and `T h pid` for a trap of the
/// process on the hart, both counted from 0 (own). `AllocError` where the allocator refused memory.
pub fn schedule_text(alloc: Global, events: &[Event]) -> Result<Vec<u8>, AllocError>
    ensures text { IfOk result (λ text. text.items ≡ schedule_text events.now) }
    ensures held { OnOk result (All IsHeld events.now) }
{
    let mut text = Vec::new(alloc);
    for event in events {
        add_event(alloc, *event, &mut text)?;
    }
    Ok(text)
}
