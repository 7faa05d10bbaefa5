//! A run that is drawn: its trace, and its figure.

use run_figure::{Band, Bar, Lane, bands, bars, lanes};
use std::alloc::{AllocError, Allocator};
use trace_read::{Doing, Event, Part, PipeState, Process, State, Trace};

/// A lane, and how long its process lived.
#[derive(Clone, Copy)]
pub struct Life {
    pub lane: Lane,
    /// How many processes are above it in the tree.
    pub depth: usize,
    /// The event by which it ended, or more than there are.
    pub ended: usize,
    /// The event by which it was taken out of the table, or more than there are.
    pub gone: usize,
    /// What it carries out, as far as the page has come.
    pub doing: Option<Doing>,
}

/// A run.
#[derive(Drop)]
pub struct Run<'t, A: Allocator> {
    pub trace: &'t Trace<A>,
    pub lives: Vec<Life, A>,
    pub bars: Vec<Bar, A>,
    pub bands: Vec<Band, A>,
    /// The event after which nobody holds an end of the pipe of each band, or more than there are.
    pub closed: Vec<usize, A>,
    /// The names of the files that events make, write to or empty, in the order in which they do so first.
    pub changed: Vec<Part, A>,
}

// The events after which nobody holds an end of each pipe.
fn closings<A: Allocator + Copy>(
    alloc: A,
    bands: &[Band],
    states: &[PipeState],
    events: usize,
) -> Result<Vec<usize, A>, AllocError> {
    let mut closed: Vec<usize, A> = Vec::new(alloc);
    closed.resize(bands.len(), events.saturating_add(1))?;
    for state in states {
        if state.readers == 0 && state.writers == 0 {
            let place = bands.partition_point(|band| band.pipe < state.pipe);
            if let Some(event) = closed.get_mut(place) {
                *event = state.event;
            }
        }
    }
    Ok(closed)
}

// The place of the lane of a process. All but the first two are in the order in which they were made.
pub fn place_of(lives: &[Life], process: Process) -> usize {
    if process.born == 0 {
        return process.pid as usize;
    }
    lives.partition_point(|life| life.lane.process.born < process.born)
}

// The lives of the lanes, as if nothing had happened yet; they last until behind the last event.
fn first_lives<A: Allocator + Copy>(
    alloc: A,
    lanes: &[Lane],
    events: usize,
) -> Result<Vec<Life, A>, AllocError> {
    let mut lives: Vec<Life, A> = Vec::new(alloc);
    for lane in lanes {
        let above = if lane.process == lane.maker {
            lane.process.pid as usize
        } else {
            match lives.as_slice().get(place_of(lives.as_slice(), lane.maker)) {
                Some(life) => life.depth.saturating_add(1),
                None => 0,
            }
        };
        lives.push(Life {
            lane: *lane,
            depth: above,
            ended: events.saturating_add(1),
            gone: events.saturating_add(1),
            doing: None,
        })?;
    }
    Ok(lives)
}

// Notes that a process ended or was taken out.
fn note_end(lives: &mut [Life], event: &Event) {
    let Some(trap) = event.trap else {
        return;
    };
    if matches!(trap.state, State::Zombie) {
        let place = place_of(lives, event.process);
        if let Some(life) = lives.get_mut(place) {
            life.ended = event.number;
        }
    }
    if let Some(reaped) = trap.reaped {
        let place = place_of(lives, reaped);
        if let Some(life) = lives.get_mut(place) {
            life.gone = event.number;
        }
    }
}

// Notes what processes carry out after an event.
fn note_doing(lives: &mut [Life], event: &Event) {
    let place = place_of(lives, event.process);
    if let Some(life) = lives.get_mut(place) {
        life.doing = Some(event.doing);
    }
    let Some(trap) = event.trap else {
        return;
    };
    let Some(child) = trap.child else {
        return;
    };
    let made = Process {
        pid: child.pid,
        born: event.number,
    };
    let place = place_of(lives, made);
    if let Some(life) = lives.get_mut(place) {
        life.doing = Some(child.doing);
    }
}

// The names of the files that events change.
fn changed_files<A: Allocator + Copy>(
    alloc: A,
    trace: &Trace<A>,
) -> Result<Vec<Part, A>, AllocError> {
    let mut names: Vec<Part, A> = Vec::new(alloc);
    for state in trace.files.as_slice() {
        let is_event = state.event > 0 && state.event <= trace.events.len();
        let text = trace.text(state.name);
        if is_event
            && !names
                .as_slice()
                .iter()
                .any(|name| trace.text(*name) == text)
        {
            names.push(state.name)?;
        }
    }
    Ok(names)
}

impl<'t, A: Allocator + Copy> Run<'t, A> {
    /// The figure of a trace.
    pub fn new(alloc: A, trace: &'t Trace<A>) -> Result<Self, AllocError> {
        let events = trace.events.as_slice();
        let lanes = lanes(alloc, events)?;
        let mut lives = first_lives(alloc, lanes.as_slice(), events.len())?;
        for event in events {
            note_end(lives.as_mut_slice(), event);
        }
        let bands = bands(alloc, events)?;
        let states = trace.pipes.as_slice();
        let closed = closings(alloc, bands.as_slice(), states, events.len())?;
        Ok(Run {
            trace,
            lives,
            bars: bars(alloc, events)?,
            bands,
            closed,
            changed: changed_files(alloc, trace)?,
        })
    }

    /// Goes on over these events, from a number and before another.
    pub fn pass(&mut self, first: usize, past: usize) {
        for event in events_of(self.trace, first, past) {
            note_doing(self.lives.as_mut_slice(), event);
        }
    }
}

impl<A: Allocator> Run<'_, A> {
    /// The place of a pipe among the pipes.
    pub fn pipe(&self, name: usize) -> usize {
        self.bands
            .as_slice()
            .partition_point(|band| band.pipe < name)
    }
}

/// The events from a number on, and before another.
pub fn events_of<A: Allocator>(trace: &Trace<A>, first: usize, past: usize) -> &[Event] {
    trace
        .events
        .as_slice()
        .get(first.saturating_sub(1)..past.saturating_sub(1))
        .unwrap_or(&[])
}
