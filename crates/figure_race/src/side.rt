//! One run of two, beside the other: the calls of the two processes whose order decides, on what they share.

use crate::things::{Thing, is_seen, touches};
use Piece::{Mark, Num};
use figure_strips::Span;
use figure_words::{Page, Piece, Run, add_command, add_place, add_sentence, events_of};
use std::alloc::Allocator;
use trace_read::{Event, Process};

// How many columns a command takes.
const ROOM: usize = 32;

// How many calls are listed before the one that decides, and behind it.
const BEFORE: usize = 8;

const BEHIND: usize = 14;

/// A run of two: what the two processes share, as it has it, these two, and its call that decides, where it has one; and how many bytes
/// the page has when no call more is described in words.
#[derive(Clone, Copy)]
pub(crate) struct Side<'p, 't, A: Allocator> {
    pub(crate) run: &'p Run<'t, A>,
    pub(crate) thing: Thing<'t>,
    pub(crate) actors: (Option<Process>, Option<Process>),
    pub(crate) call: Option<&'t Event>,
    pub(crate) most: usize,
}

impl<'t, A: Allocator> Side<'_, 't, A> {
    // Whether the process is the first of the two.
    fn is_first(&self, process: Process) -> bool {
        self.actors.0 == Some(process)
    }

    /// Whether an event is a call of one of the two on what they share, or one that is seen.
    pub(crate) fn is_meant(&self, event: &Event) -> bool {
        let is_actor = self.is_first(event.process) || self.actors.1 == Some(event.process);
        match &event.trap {
            Some(trap) => is_actor && (touches(self.run, trap, self.thing) || is_seen(trap)),
            None => false,
        }
    }

    /// The events of it from one on, and before another.
    pub(crate) fn events(&self, span: Span) -> &'t [Event] {
        events_of(self.run.trace, span.first, span.past)
    }

    /// How many of these events are such calls.
    pub(crate) fn count(&self, span: Span) -> usize {
        let mut count: usize = 0;
        for event in self.events(span) {
            if self.is_meant(event) {
                count = count.saturating_add(1);
            }
        }
        count
    }

    /// The number of the call that decides, or else the one behind the last event.
    pub(crate) fn number(&self) -> usize {
        match self.call {
            Some(event) => event.number,
            None => self.run.trace.events.len().saturating_add(1),
        }
    }

    /// The events before the call that decides, and those behind it.
    pub(crate) fn parts(&self) -> (Span, Span) {
        let (number, events) = (self.number(), self.run.trace.events.len());
        let before = Span {
            first: 1,
            past: number,
        };
        let first = number.saturating_add(1);
        let behind = Span {
            first,
            past: events.saturating_add(1).max(first),
        };
        (before, behind)
    }

    /// The first call behind the one that decides by which the other process touches what they share; 0 where there is none.
    pub(crate) fn later(&self) -> usize {
        let Some(call) = self.call else {
            return 0;
        };
        let (_before, behind) = self.parts();
        let later = self.events(behind).iter().find(|event| match &event.trap {
            Some(trap) => {
                event.process != call.process
                    && self.is_meant(event)
                    && touches(self.run, trap, self.thing)
            }
            None => false,
        });
        match later {
            Some(event) => event.number,
            None => 0,
        }
    }
}

// The class of what the first of the two does, or the second.
fn class_of(is_first: bool) -> Piece<'static> {
    Mark(if is_first { "first" } else { "second" })
}

// What the process of an event did by its call.
fn add_call<A: Allocator + Copy>(page: &mut Page<A>, run: &Run<'_, A>, event: &Event) {
    add_command(page, run, event, ROOM);
    if let Some(trap) = &event.trap {
        page.mark(" ");
        add_sentence(page, run, event, trap);
    }
}

// The item of a call.
fn add_item<A: Allocator + Copy>(
    page: &mut Page<A>,
    side: &Side<'_, '_, A>,
    event: &Event,
    is_later: bool,
) {
    page.add(&[
        Mark("<li class=\""),
        class_of(side.is_first(event.process)),
        Mark("\"><span class=\"note\">"),
        Num(event.number),
        Mark("</span> "),
        Mark(if is_later { "<b>◇</b> " } else { "" }),
    ]);
    add_call(page, side.run, event);
    page.mark("</li>\n");
}

// The calls of these events that are meant, from one of them on, counted from 0, and at most so many; returns how many there are.
fn add_items<A: Allocator + Copy>(
    page: &mut Page<A>,
    side: &Side<'_, '_, A>,
    span: Span,
    (from, most): (usize, usize),
) -> usize {
    let later = side.later();
    let mut seen: usize = 0;
    let mut shown: usize = 0;
    page.mark("<ol>\n");
    for event in side.events(span) {
        if side.is_meant(event) {
            if seen >= from && shown < most && page.size() < side.most {
                shown = shown.saturating_add(1);
                add_item(page, side, event, event.number == later);
            }
            seen = seen.saturating_add(1);
        }
    }
    page.mark("</ol>\n");
    shown
}

// Says how many calls are left out.
fn add_more<A: Allocator>(page: &mut Page<A>, count: usize, words: &'static str) {
    if count > 0 {
        page.add(&[
            Mark("<p class=\"note\">and "),
            Num(count),
            Mark(words),
            Mark("</p>\n"),
        ]);
    }
}

/// What comes before the call that decides: the last calls of both on what they share.
pub(crate) fn add_before<A: Allocator + Copy>(page: &mut Page<A>, side: &Side<'_, '_, A>) {
    let (before, _behind) = side.parts();
    let count = side.count(before);
    let from = count.saturating_sub(BEFORE);
    page.mark("<div class=\"before\">\n");
    add_more(page, from, " calls on it before these");
    let shown = add_items(page, side, before, (from, BEFORE));
    let more = count.saturating_sub(from).saturating_sub(shown);
    add_more(page, more, " calls more before the next");
    page.mark("</div>\n");
}

/// The call that decides.
pub(crate) fn add_turn<A: Allocator + Copy>(page: &mut Page<A>, side: &Side<'_, '_, A>) {
    let Some(event) = side.call else {
        page.mark("<div class=\"turn\"><b>◆</b> no such call in this run</div>\n");
        return;
    };
    page.add(&[
        Mark("<div class=\"turn "),
        class_of(side.is_first(event.process)),
        Mark("\"><b>◆</b> <span class=\"note\">event "),
        Num(event.number),
        Mark(", "),
    ]);
    add_place(page, side.run, event);
    page.mark("</span><br>");
    add_call(page, side.run, event);
    page.mark("</div>\n");
}

/// What comes behind the call that decides: the next calls of both on what they share.
pub(crate) fn add_behind<A: Allocator + Copy>(page: &mut Page<A>, side: &Side<'_, '_, A>) {
    let (_before, behind) = side.parts();
    let count = side.count(behind);
    page.mark("<div class=\"behind\">\n");
    let shown = add_items(page, side, behind, (0, BEHIND));
    let more = count.saturating_sub(shown);
    add_more(page, more, " more such calls, in the table below");
    page.mark("</div>\n");
}
