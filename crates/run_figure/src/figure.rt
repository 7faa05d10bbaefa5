//! Lanes, bars and bands.

ghost use Rattle.std.specs.Prelude.{◌≡◌, ◌++◌, ◌-◌, IfOk, position, not};
ghost use Rattle.std.specs.List.{filter_map};
ghost use Rattle.run_figure.specs.Figure.{BeginAlike, is_same_at, is_same_turn, lane_of, first_lane, first_lanes, AreApart, Rise, bar_of, band_of, asleep_on, child_of, read_end_of, wakes, wake_of, is_made};

use std::alloc::{AllocError, Allocator};
use trace_read::{Channel, Event, Process, Reply, State, Trap};

/// The lane of a process.
#[derive(Clone, Copy)]
pub struct Lane {
    pub process: Process,
    /// The process that made it; itself of init and the first shell.
    pub maker: Process,
}

/// The bar of a sleep.
#[derive(Clone, Copy)]
pub struct Bar {
    pub process: Process,
    /// What it sleeps on.
    pub channel: Channel,
    /// The number of the event that put it to sleep.
    pub from: usize,
    /// The number of the event that woke it; `None` where it sleeps to the end.
    pub to: Option<usize>,
}

/// The band of a pipe.
#[derive(Clone, Copy)]
pub struct Band {
    /// The number of the event that made it.
    pub pipe: usize,
    /// The process that made it.
    pub maker: Process,
}

// The slot of the child that a trap made.
fn child_of(trap: Option<Trap>) -> Option<u8>
    ensures { result ≡ child_of trap }
{
    match trap {
        Some(trap) => match trap.child {
            Some(child) => Some(child.pid),
            None => None,
        },
        None => None,
    }
}

// What the process sleeps on after a trap.
fn asleep_on(trap: Option<Trap>) -> Option<Channel>
    ensures { result ≡ asleep_on trap }
{
    match trap {
        Some(trap) => match trap.state {
            State::Asleep(channel) => Some(channel),
            State::Runnable(_) | State::Zombie => None,
        },
        None => None,
    }
}

// The descriptor of the read end of the pipe that a trap made.
fn read_end_of(trap: Option<Trap>) -> Option<usize>
    ensures { result ≡ read_end_of trap }
{
    match trap {
        Some(trap) => match trap.state {
            State::Runnable(Reply::Ends(reader, _)) => Some(reader),
            _ => None,
        },
        None => None,
    }
}

// Whether a trap woke the process of this slot.
fn wakes(trap: Option<Trap>, pid: u8) -> bool
    ensures { result ≡ wakes trap pid }
{
    match trap {
        Some(trap) => pid < 64 && (trap.woken >> pid) % 2 == 1,
        None => false,
    }
}

// The lane of the process that the event made.
#[tactic(auto, unfolding(crate::specs::Figure::lane_of))]
fn lane_of(event: &Event) -> Option<Lane>
    ensures { result ≡ lane_of event.now }
{
    let pid = child_of(event.trap)?;
    Some(Lane {
        process: Process {
            pid,
            born: event.number,
        },
        maker: event.process,
    })
}

// The number of the first event behind so many that wakes the process of this slot.
fn wake_of(events: &[Event], count: usize, pid: u8) -> Option<usize>
    ensures { result ≡ wake_of events.now count pid }
{
    let event = events
        .iter()
        .skip(count)
        .find(|event| wakes(event.trap, pid))?;
    Some(event.number)
}

// The bar of the sleep that begins at the event.
#[tactic(auto, unfolding(crate::specs::Figure::bar_of))]
fn bar_of(events: &[Event], event: &Event) -> Option<Bar>
    ensures { result ≡ bar_of events.now event.now }
{
    let channel = asleep_on(event.trap)?;
    Some(Bar {
        process: event.process,
        channel,
        from: event.number,
        to: wake_of(events, event.number, event.process.pid),
    })
}

// The band of the pipe that the event made.
#[tactic(auto, unfolding(crate::specs::Figure::band_of))]
fn band_of(event: &Event) -> Option<Band>
    ensures { result ≡ band_of event.now }
{
    let _reader = read_end_of(event.trap)?;
    Some(Band {
        pipe: event.number,
        maker: event.process,
    })
}

// The lane of a process that is there before the first event.
fn first_lane(pid: u8) -> Lane
    ensures { result ≡ first_lane pid }
{
    let process = Process { pid, born: 0 };
    Lane {
        process,
        maker: process,
    }
}

// The lanes of the processes that events made, in order.
fn made_lanes<A: Allocator>(alloc: A, events: &[Event]) -> Result<Vec<Lane, A>, AllocError>
    ensures { IfOk result (λ lanes. lanes.items ≡ filter_map lane_of events.now) }
{
    let mut lanes = Vec::new(alloc);
    for event in events {
        if let Some(lane) = lane_of(event) {
            lanes.push(lane)?;
        }
    }
    Ok(lanes)
}

// The lanes of init, of the first shell, and then of the processes that events made.
fn listed_lanes<A: Allocator>(alloc: A, events: &[Event]) -> Result<Vec<Lane, A>, AllocError>
    ensures { IfOk result (λ lanes. lanes.items ≡ first_lanes ++ filter_map lane_of events.now) }
{
    let mut lanes = made_lanes(alloc, events)?;
    lanes.insert(0, first_lane(1))?;
    lanes.insert(0, first_lane(0))?;
    Ok(lanes)
}

/// The lanes: of init, of the first shell, and then of each process in the order in which they were made. Where the numbers of the
/// events rise from 1 or more on, no two are of one process. Own.
///
/// `AllocError` where memory is refused.
pub fn lanes<A: Allocator>(alloc: A, events: &[Event]) -> Result<Vec<Lane, A>, AllocError>
    ensures lanes { IfOk result (λ lanes. lanes.items ≡ first_lanes ++ filter_map lane_of events.now) }
    ensures apart { Rise 0 events.now → IfOk result (λ lanes. AreApart lanes.items) }
{
    let lanes = listed_lanes(alloc, events)?;
    Ok(lanes)
}

/// The bars: one a sleep, from the event that put the process to sleep to the first one behind it that woke it, in the order in
/// which they begin. Own.
///
/// `AllocError` where memory is refused.
pub fn bars<A: Allocator>(alloc: A, events: &[Event]) -> Result<Vec<Bar, A>, AllocError>
    ensures { IfOk result (λ bars. bars.items ≡ filter_map (bar_of events.now) events.now) }
{
    events
        .iter()
        .filter_map(|event| bar_of(events, event))
        .collect(alloc)
}

/// The bands: one a pipe, in the order in which they were made. Own.
///
/// `AllocError` where memory is refused.
pub fn bands<A: Allocator>(alloc: A, events: &[Event]) -> Result<Vec<Band, A>, AllocError>
    ensures { IfOk result (λ bands. bands.items ≡ filter_map band_of events.now) }
{
    let mut bands = Vec::new(alloc);
    for event in events {
        if let Some(band) = band_of(event) {
            bands.push(band)?;
        }
    }
    Ok(bands)
}

// Whether the process was made: by the event that it names, before the event so many are before, or it is init or the first shell.
fn is_made(events: &[Event], count: usize, process: Process) -> bool
    ensures { result ≡ is_made events.now count process }
{
    if process.born == 0 {
        return process.pid < 2;
    }
    if process.born > count {
        return false;
    }
    match events.get(process.born - 1) {
        Some(event) => child_of(event.trap) == Some(process.pid),
        None => false,
    }
}

/// How many events are before the first whose process no event before it made; `None` where each event's process is init,
/// the first shell, or was made. Own.
pub fn first_stranger(events: &[Event]) -> Option<usize>
    ensures { result ≡ position (λ event. not (is_made events.now (event.number - 1) event.process)) events.now }
{
    events.iter().position(|event| {
        !is_made(events, event.number.saturating_sub(1), event.process)
    })
}

// Whether the two events are of the same kind, on the same hart, of the same process.
fn is_same_turn(one: &Event, other: &Event) -> bool
    ensures { result ≡ is_same_turn one.now other.now }
{
    one.trap.is_some() == other.trap.is_some()
        && one.hart == other.hart
        && one.process == other.process
}

// Whether both runs have an event of this place, counted from 0, and these are the same.
fn is_same_at(one: &[Event], other: &[Event], place: usize) -> bool
    ensures { result ≡ is_same_at one.now other.now place }
{
    match (one.get(place), other.get(place)) {
        (Some(one), Some(other)) => is_same_turn(one, other),
        _ => false,
    }
}

/// With how many same events both runs begin: events are the same that are of the same kind, on the same hart and of the same
/// process. Own.
pub fn common_events(one: &[Event], other: &[Event]) -> usize
    ensures { BeginAlike one.now other.now result }
{
    for place in 0..one.len() {
        if !is_same_at(one, other, place) {
            return place;
        }
    }
    one.len()
}
