//! Lines to events.

ghost use Rattle.std.specs.Prelude.{◌≡◌, ◌≢◌, ◌<◌, ◌^◌, ◌++◌, ◌∷◌, ℕ, All, IfErr, IfNone, IfOk, IfSome, OnOk, [], length};
ghost use Rattle.std.specs.Fmt.{decimal};
ghost use Rattle.prog_parts.specs.Lines.{IsFirstLine};
ghost use Rattle.kernel_model.specs.declared.events.Event.{Event};
ghost use Rattle.schedule_lines.specs.EventLines.{numbers_text, event_text, is_note, AddsLine, AreLinesOf, HasNoSpace, IsHeld, IsLineFault, IsNoEvent, IsScheduleFault};

use itoa::Buffer;
use kernel_model::Event;
use memchr::memchr;
use prog_parts::split_line;
use std::alloc::{AllocError, Global};
use std::str;
use thiserror::Error;

/// Why a text is no schedule (own).
#[derive(Clone, Copy, Debug, PartialEq, Eq, Error)]
pub enum ScheduleFault {
    /// Fault 1: this line, counted from 1, is the first that is no event.
    #[error("line {0} is no event")]
    NoEvent(usize),
    /// Fault 2: the allocator refused memory.
    #[error("no memory")]
    Memory,
}

impl From<AllocError> for ScheduleFault {
    ghost use Rattle.schedule_lines.specs.declared.reading.ScheduleFault.TheVariants.{Memory};

    ghost from_gives = { λ _ fault. fault ≡ Memory };

    fn from(_error: AllocError) -> ScheduleFault {
        ScheduleFault::Memory
    }
}

/// The number below 2^64 that is written so, in decimal digits and with nothing before it, not even a zero; `None` where the text
/// is that of no such number (own).
pub fn number_of(text: &[u8]) -> Option<u64>
    ensures some { IfSome result (λ number. text.now ≡ decimal number) }
    ensures none { IfNone result ((number : ℕ) → number < 2 ^ 64 → text.now ≢ decimal number) }
{
    let Ok(text) = str::from_utf8(text) else {
        return None;
    };
    let Ok(number) = text.parse::<u64>() else {
        return None;
    };
    if Buffer::new().format(number) == text {
        Some(number)
    } else {
        None
    }
}

// What stands before the first space, and after it.
fn split_space(text: &[u8]) -> Option<(&[u8], &[u8])>
    ensures none { IfNone result (HasNoSpace text.now) }
    ensures word { IfSome result (λ cut. HasNoSpace cut.0.now) }
    ensures some { IfSome result (λ cut. text.now ≡ cut.0.now ++ 32 ∷ cut.1.now) }
{
    let end = memchr(b' ', text)?;
    Some((&text[..end], &text[end + 1..]))
}

// The hart and the process that are written so.
fn numbers_of(text: &[u8]) -> Option<(u8, u32)>
    ensures some { IfSome result (λ numbers. text.now ≡ numbers_text numbers.0 numbers.1) }
    ensures none { IfNone result ((hart pid : ℕ) → hart < 2 ^ 8 → pid < 2 ^ 32 → text.now ≢ numbers_text hart pid) }
{
    let (hart, pid) = split_space(text)?;
    let hart = number_of(hart)?;
    let pid = number_of(pid)?;
    if 255 < hart {
        return None;
    }
    if 4_294_967_295 < pid {
        return None;
    }
    Some((hart as u8, pid as u32))
}

// The event of a line.
fn event_of(line: &[u8]) -> Option<Event>
    ensures some { IfSome result (λ event. (line.now ≡ event_text event) × IsHeld event) }
    ensures none { IfNone result (IsNoEvent line.now) }
{
    match line {
        [b'D', b' ', numbers @ ..] => {
            let (hart, pid) = numbers_of(numbers)?;
            Some(Event::Dispatch(hart, pid))
        }
        [b'T', b' ', numbers @ ..] => {
            let (hart, pid) = numbers_of(numbers)?;
            Some(Event::Trap(hart, pid))
        }
        _ => None,
    }
}

// The first line without its LF, and what follows it.
fn first_line(bytes: &[u8]) -> (&[u8], &[u8])
    requires { 0 < length bytes.now }
    ensures { IsFirstLine bytes.now result.0.now result.1.now }
{
    match split_line(bytes) {
        Some(cut) => cut,
        None => (bytes, &[]),
    }
}

// Adds an event at the end.
fn add_event(events: &mut Vec<Event>, event: Event) -> Result<(), AllocError>
    ensures { OnOk result (events.new.items ≡ events.old.items ++ event ∷ []) }
{
    events.push(event)?;
    Ok(())
}

// Whether a line is empty or begins with `#`.
fn is_note(line: &[u8]) -> bool
    ensures { result ≡ is_note line.now }
{
    match line {
        [] => true,
        [first, ..] => *first == b'#',
    }
}

// Adds the event of the line of this number, unless it is a note.
fn add_line(events: &mut Vec<Event>, line: &[u8], number: usize) -> Result<(), ScheduleFault>
    ensures added { OnOk result (AddsLine line.now events.old.items events.new.items) }
    ensures fault { IfErr result (IsLineFault line.now number) }
{
    if is_note(line) {
        return Ok(());
    }
    let Some(event) = event_of(line) else {
        return Err(ScheduleFault::NoEvent(number));
    };
    add_event(events, event)?;
    Ok(())
}

/// The events of a text, which has a line for each: `D h pid` for a dispatch of the process to the hart, and `T h pid` for
/// a trap of the process on the hart (own). The numbers are in decimal without leading zeros, a hart's at most 255 and
/// a process's at most 4,294,967,295; one space stands before each, and nothing else on the line. The last line may lack its LF.
/// An empty line, and one that begins with `#`, is a note, and no event.
///
/// `NoEvent` names the first line that is neither, counted from 1; `Memory` where the allocator refused memory.
pub fn read_schedule(alloc: Global, bytes: &[u8]) -> Result<Vec<Event>, ScheduleFault>
    ensures lines { IfOk result (λ events. AreLinesOf bytes.now events.items) }
    ensures held { IfOk result (λ events. All IsHeld events.items) }
    ensures fault { IfErr result (IsScheduleFault bytes.now) }
{
    let mut events = Vec::new(alloc);
    let mut count = 0;
    let mut rest = bytes;
    while !rest.is_empty() {
        let (line, after) = first_line(rest);
        add_line(&mut events, line, count + 1)?;
        count += 1;
        rest = after;
    }
    Ok(events)
}
