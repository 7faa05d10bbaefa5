//! States, the turns that lead from one to another, and what can come of each.

use every_order::Outcome;
use std::alloc::Global;

/// A turn that is offered.
#[derive(Clone, Copy, Debug, PartialEq, Eq)]
pub struct Turn {
    /// Whose turn it is, by its slot.
    pub pid: u8,
    /// The place of the state to which it leads, among those that are shown, from 0.
    pub next: usize,
}

/// A state that is to be shown.
#[derive(Drop)]
pub struct Spot {
    /// The processes of the turns that lead there from the start, by their slots.
    pub pids: Vec<u8>,
    /// The turns that are offered there.
    pub turns: Vec<Turn>,
    /// Whether the turns there weren't followed.
    pub is_cut: bool,
}

/// A state that is shown, and what is shown of it.
#[derive(Drop)]
pub struct Shown {
    pub spot: Spot,
    /// The places of the outcomes that can still come, among all of the play, from 0, ascending.
    pub possible: Vec<usize>,
    /// Whether a run that goes on can come to where all processes sleep.
    pub sleeps: bool,
    /// A process whose turn gives way to nobody's, if one was found.
    pub only: Option<usize>,
}

/// What a search may take for each state.
#[derive(Clone, Copy)]
pub struct Budget {
    /// From where its memory comes.
    pub alloc: Global,
    /// How many states it may keep at most.
    pub states: usize,
}

/// States that are shown, and the outcomes; each state says which of these can still come.
#[derive(Drop)]
pub struct Play {
    pub outcomes: Vec<Outcome>,
    pub shown: Vec<Shown>,
}
