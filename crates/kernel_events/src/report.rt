//! What a run leaves.

ghost use Rattle.std.specs.Prelude.{◌≡◌, ◌↔◌, IsTrue, count_by};
ghost use Rattle.kernel_events.specs.Harts.{is_of_hart};
ghost use Rattle.kernel_events.specs.Same.{AreSame, EndedTheSame, LeftTheSame, WentTheSame};

use kernel_model::{Event, Full};
use mem_files::Files;
use std::alloc::Allocator;
use std::marker::Model;

/// A list of events.
#[derive(Drop)]
pub struct Schedule<A: Allocator> {
    events: Vec<Event, A>,
}

impl<A: Allocator> Model for Schedule<A> {
    ghost use Rattle.std.specs.Prelude.{List};
    ghost use Rattle.kernel_model.specs.declared.events.Event.{Event};

    ghost Value = { List Event };

    ghost view = { λ s. s.events.items };
}

impl<A: Allocator> Schedule<A> {
    /// The list of these events.
    pub fn from_vec(events: Vec<Event, A>) -> Self
        ensures { result ≡ events.items }
    {
        Schedule { events }
    }

    /// The events.
    pub fn as_slice(&self) -> &[Event]
        ensures { result.now ≡ self.now }
    {
        self.events.as_slice()
    }
}

/// What a run leaves: what was written, the files, and what happened.
#[derive(Drop)]
pub struct Report<A: Allocator> {
    /// What was written to the standard output.
    pub out: Vec<u8, A>,
    /// What was written as diagnostics.
    pub diag: Vec<u8, A>,
    pub files: Files<A>,
    /// What the first refusal for want of room was for.
    pub full: Option<Full>,
    /// Whether every process but init has ended.
    pub finished: bool,
    pub schedule: Schedule<A>,
    /// How many events of the schedule each hart had.
    pub by_hart: [u64; 8],
}

impl<A: Allocator> Report<A> {
    /// Whether both reports are equal, whatever their allocators.
    pub fn same<B: Allocator>(&self, other: &Report<B>) -> bool
        ensures { IsTrue result ↔ AreSame self.now other.now }
    {
        self.left_the_same(other) && self.ended_the_same(other) && self.went_the_same(other)
    }

    // Whether the same was written, and the same files are left.
    fn left_the_same<B: Allocator>(&self, other: &Report<B>) -> bool
        ensures { IsTrue result ↔ LeftTheSame self.now other.now }
    {
        self.out.as_slice() == other.out.as_slice()
            && self.diag.as_slice() == other.diag.as_slice()
            && self.files.same(&other.files)
    }

    // Whether the run came as far, and the same was full.
    fn ended_the_same<B: Allocator>(&self, other: &Report<B>) -> bool
        ensures { IsTrue result ↔ EndedTheSame self.now other.now }
    {
        self.full == other.full && self.finished == other.finished
    }

    // Whether the same events happened.
    fn went_the_same<B: Allocator>(&self, other: &Report<B>) -> bool
        ensures { IsTrue result ↔ WentTheSame self.now other.now }
    {
        are_same(self.schedule.as_slice(), other.schedule.as_slice())
            && self.by_hart == other.by_hart
    }
}

// Whether both are the same events.
fn are_same(left: &[Event], right: &[Event]) -> bool
    ensures { IsTrue result ↔ (left.now ≡ right.now) }
{
    if left.len() != right.len() {
        return false;
    }
    for i in 0..left.len() {
        if !is_same(&left[i], &right[i]) {
            return false;
        }
    }
    true
}

// Whether both are the same event.
fn is_same(left: &Event, right: &Event) -> bool
    ensures { IsTrue result ↔ (left.now ≡ right.now) }
{
    left == right
}

// Whether the event is one of the hart.
fn is_of_hart(event: &Event, hart: u8) -> bool
    ensures { result ≡ is_of_hart hart event.now }
{
    match event {
        Event::Dispatch(other, _) => hart == *other,
        Event::Trap(other, _) => hart == *other,
    }
}

// How many of the events are of the hart.
pub(crate) fn count_of_hart(events: &[Event], hart: u8) -> u64
    ensures { result ≡ count_by (is_of_hart hart) events.now }
{
    events
        .iter()
        .filter(|event| is_of_hart(event, hart))
        .count() as u64
}
