//! The lane of one of the two processes in a run: which of its calls are in the picture, and which are folded before and behind them.

use crate::picked::{Grid, Shown};
use crate::side::Side;
use figure_words::Run;
use std::alloc::Allocator;
use trace_read::{Event, Process};

/// A lane of a run: its process, whether that is the first of the two, and what the picture shows of the run.
#[derive(Clone, Copy)]
pub(crate) struct Lane<'p, 't, A: Allocator> {
    pub(crate) side: &'p Side<'p, 't, A>,
    pub(crate) shown: &'p [Shown<'t>],
    pub(crate) grid: Grid,
    pub(crate) process: Process,
    pub(crate) is_first: bool,
}

/// The calls of a lane that the picture folds: those before the ones that it shows, or the others.
#[derive(Clone, Copy)]
pub(crate) enum Folded {
    Early,
    Late,
}

impl<'t, A: Allocator> Lane<'_, 't, A> {
    /// The run.
    pub(crate) fn run(&self) -> &Run<'t, A> {
        self.side.run
    }

    /// The number of the first call of the lane that is shown, or else of the call that decides.
    pub(crate) fn first_shown(&self) -> usize {
        let first = self
            .shown
            .iter()
            .find(|shown| shown.event.process == self.process);
        match first {
            Some(shown) => shown.event.number,
            None => self.side.number(),
        }
    }

    /// The event by whose command the lane is named: that of its first call which is shown, or else its first one.
    pub(crate) fn named(&self) -> Option<&'t Event> {
        let first = self.first_shown();
        let mut events = self.events().iter();
        events.find(|event| {
            event.process == self.process && (event.number >= first || !self.has_shown())
        })
    }

    // Whether a call of the lane is shown.
    fn has_shown(&self) -> bool {
        self.shown
            .iter()
            .any(|shown| shown.event.process == self.process)
    }

    /// The events of its run.
    pub(crate) fn events(&self) -> &'t [Event] {
        self.side.run.trace.events.as_slice()
    }

    // Whether an event is a call that is shown.
    fn is_shown(&self, event: &Event) -> bool {
        self.shown
            .iter()
            .any(|shown| shown.event.number == event.number)
    }

    /// Whether an event is a call of the lane that is folded so; the first call that is shown has this number.
    pub(crate) fn is_folded(&self, event: &Event, first: usize, folded: Folded) -> bool {
        if event.process != self.process || event.trap.is_none() {
            return false;
        }
        match folded {
            Folded::Early => event.number < first,
            Folded::Late => event.number > first && !self.is_shown(event),
        }
    }

    /// How many calls of it are folded so.
    pub(crate) fn count(&self, folded: Folded) -> usize {
        let first = self.first_shown();
        let mut count: usize = 0;
        for event in self.events() {
            if self.is_folded(event, first, folded) {
                count = count.saturating_add(1);
            }
        }
        count
    }

    /// How many of the calls before those that are shown are on what the two share, or seen.
    pub(crate) fn count_meant(&self) -> usize {
        let first = self.first_shown();
        let mut count: usize = 0;
        for event in self.events() {
            if self.side.is_meant(event) && self.is_folded(event, first, Folded::Early) {
                count = count.saturating_add(1);
            }
        }
        count
    }

    /// The event by which its process ended, or more than there are.
    pub(crate) fn ended(&self) -> usize {
        let lives = self.side.run.lives.as_slice();
        let life = lives.iter().find(|life| life.lane.process == self.process);
        match life {
            Some(life) => life.ended,
            None => usize::MAX,
        }
    }
}
