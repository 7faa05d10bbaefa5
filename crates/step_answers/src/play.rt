//! A session with its narrator, and the turns that are taken in it.

use crate::deeds::{add_deed, plan_of};
use crate::narrator::Narrator;
use crate::scene::Scene;
use crate::text::Text;
use crate::words::add_process;
use kernel_events::{Event, Kernel};
use proc_table::{Pid, State};
use std::alloc::{AllocError, Global};
use step_commands::Goal;
use step_session::{
    BackFault, ChooseFault, Exploration, RestFault, Session, Unwatched, outcomes_from,
};
use user_calls::Machine;

/// How many turns one command takes at most (own).
pub const MOST_TURNS: usize = 100_000;

/// Why a play can't go on.
#[derive(Clone, Copy, Debug)]
pub enum PlayFault {
    /// The event of this number, counted from 1, of a schedule that is taken up can't take place.
    Stopped(usize),
    /// Memory was refused.
    Memory,
}

impl From<AllocError> for PlayFault {
    fn from(_error: AllocError) -> PlayFault {
        PlayFault::Memory
    }
}

// Who takes turns, and how many.
#[derive(Clone, Copy)]
pub enum Pace {
    // The process of this slot, once.
    Once(usize),
    // The process of this slot, until it sleeps or exits.
    Go(usize),
    // Whoever the kernel chooses, until this.
    Until(Goal),
}

// What is printed of turns: text, or the records of a trace, a line each; and how many turns there were.
#[derive(Drop)]
pub struct Printed {
    pub text: Text,
    pub records: Vec<u8>,
    pub turns: usize,
    // Whether the turns ended because there were too many.
    pub is_cut: bool,
}

/// A session that is printed.
#[derive(Drop)]
pub struct Play<'t, M: Machine> {
    pub(crate) alloc: Global,
    scene: Scene<'t, M>,
    session: Session<'t, M, Global>,
    pub(crate) narrator: Narrator<'t, M>,
    pub(crate) is_json: bool,
    // Whether the answers are printed after each turn.
    pub(crate) watches: bool,
}

impl<'t, M: Machine> Play<'t, M> {
    /// A session from its start, printed as text or as JSON.
    pub fn start(
        alloc: Global,
        scene: Scene<'t, M>,
        is_json: bool,
    ) -> Result<Play<'t, M>, PlayFault> {
        let (init, shell) = (scene.init.twin(), scene.shell.twin());
        let session = Session::start(alloc, init, shell, scene.stdin, scene.files)?;
        let narrator = Narrator::new(alloc, &scene)?;
        Ok(Play {
            alloc,
            scene,
            session,
            narrator,
            is_json,
            watches: false,
        })
    }

    /// Takes the turns of a schedule, which may be one of several harts: each process that makes a call takes a turn.
    ///
    /// `Stopped` where one can't.
    pub fn take_up(&mut self, events: &[Event]) -> Result<(), PlayFault> {
        for (place, event) in events.iter().enumerate() {
            if let Event::Trap(_, pid) = event {
                match self.session.choose(*pid as usize) {
                    Ok(()) => {}
                    Err(ChooseFault::Memory) => return Err(PlayFault::Memory),
                    Err(ChooseFault::NotRunnable) => {
                        return Err(PlayFault::Stopped(place.saturating_add(1)));
                    }
                }
            }
        }
        self.follow()
    }

    /// The kernel as it is.
    pub fn kernel(&self) -> &Kernel<M, Global> {
        self.session.kernel()
    }

    // How many turns were taken.
    pub(crate) fn turns(&self) -> usize {
        self.session.turns()
    }

    // What can still come out, through so many states.
    pub(crate) fn rest(&self, states: usize) -> Result<Exploration, RestFault> {
        outcomes_from(self.alloc, &self.session, states, &mut Unwatched)
    }

    // Whether memory was refused to a process of the session, which the narrator's was given.
    pub(crate) fn is_apart(&self) -> bool {
        self.session.kernel().full() != self.narrator.kernel().full()
    }

    // Makes the narrator anew, and lets the session's events happen in it.
    fn follow(&mut self) -> Result<(), PlayFault> {
        let mut narrator = Narrator::new(self.alloc, &self.scene)?;
        let mut lines = Vec::new(self.alloc);
        for event in self.session.kernel().schedule() {
            lines.clear();
            lines = match happen(&mut narrator, *event, lines)? {
                Some(lines) => lines,
                None => return Err(PlayFault::Memory),
            };
        }
        self.narrator = narrator;
        Ok(())
    }

    // Takes turns back; `false` where there were fewer.
    pub(crate) fn back(&mut self, turns: u64) -> Result<bool, PlayFault> {
        let turns = usize::try_from(turns).unwrap_or(usize::MAX);
        match self.session.back(self.alloc, turns) {
            Ok(()) => {
                self.follow()?;
                Ok(true)
            }
            Err(BackFault::TooFar) => Ok(false),
            Err(BackFault::Memory) => Err(PlayFault::Memory),
        }
    }

    // Somebody takes a turn in the session, and who it was; `None` where that can't be.
    fn choose(&mut self, pace: Pace) -> Result<Option<Pid>, PlayFault> {
        let (Pace::Once(slot) | Pace::Go(slot)) = pace else {
            return Ok(self.session.choose_next()?);
        };
        match self.session.choose(slot) {
            Ok(()) => Ok(Pid::new(slot)),
            Err(ChooseFault::NotRunnable) => Ok(None),
            Err(ChooseFault::Memory) => Err(PlayFault::Memory),
        }
    }

    // Prints the turn that the process took, which happens in the narrator's kernel now.
    fn print_turn(&mut self, pid: Pid, printed: &mut Printed) -> Result<(), PlayFault> {
        if self.is_json {
            return self.print_records(pid, printed);
        }
        let alloc = self.alloc;
        let first = self.narrator.kernel().schedule().len() as u64;
        add_event_numbers(&mut printed.text, first);
        add_process(&mut printed.text, pid, self.narrator.doing(pid));
        printed.text.byte(b' ');
        if self.narrator.dispatch(pid, Vec::new(alloc))?.is_none() {
            return Err(PlayFault::Memory);
        }
        let plan = plan_of(alloc, &self.narrator, pid)?;
        if self.narrator.trap(pid, Vec::new(alloc))?.is_none() {
            return Err(PlayFault::Memory);
        }
        add_deed(&mut printed.text, &self.narrator, pid, &plan);
        printed.text.byte(b'\n');
        self.add_watched(&mut printed.text);
        Ok(())
    }

    // The same with the two records of the turn.
    fn print_records(&mut self, pid: Pid, printed: &mut Printed) -> Result<(), PlayFault> {
        let Some(records) = self.narrator.dispatch(pid, Vec::new(self.alloc))? else {
            return Err(PlayFault::Memory);
        };
        let Some(records) = self.narrator.trap(pid, records)? else {
            return Err(PlayFault::Memory);
        };
        printed.records.extend_from_slice(records.as_slice())?;
        Ok(())
    }

    // Whether the process of this slot can take no turn.
    fn is_still(&self, slot: usize) -> bool {
        match Pid::new(slot) {
            Some(pid) => !matches!(self.kernel().state(pid), State::Runnable),
            None => true,
        }
    }

    // Whether the process of this number sleeps.
    fn is_asleep(&self, number: u64) -> bool {
        match pid_of(number) {
            Some(pid) => self.narrator.is_asleep(pid),
            None => false,
        }
    }

    // Whether the last turn reached what was waited for; `out` bytes were written before.
    fn is_there(&self, pace: Pace, out: usize) -> bool {
        match pace {
            Pace::Once(_) => true,
            Pace::Go(slot) => self.is_still(slot),
            Pace::Until(Goal::Out) => out < self.kernel().out().len(),
            Pace::Until(Goal::End) => false,
            Pace::Until(Goal::Sleep(number)) => self.is_asleep(number),
            Pace::Until(Goal::Exit(number)) => self.has_exited(number),
        }
    }

    // Whether the process of this number has exited, and by the last turn at the latest was waited for.
    fn has_exited(&self, number: u64) -> bool {
        let Some(pid) = pid_of(number) else {
            return false;
        };
        if matches!(self.kernel().state(pid), State::Zombie) {
            return true;
        }
        match self.narrator.gone() {
            Some(gone) => gone.index() == pid.index(),
            None => false,
        }
    }

    // Whether only init is left, which would wait for ever; one turn of it may be asked for.
    fn is_over(&self, pace: Pace) -> bool {
        match pace {
            Pace::Once(_) => false,
            Pace::Go(_) | Pace::Until(_) => self.kernel().is_finished(),
        }
    }

    // Takes one more turn, if that can be done, and prints it; and returns whether another one may follow.
    fn take_turn(
        &mut self,
        pace: Pace,
        out: usize,
        printed: &mut Printed,
    ) -> Result<bool, PlayFault> {
        if self.is_over(pace) {
            return Ok(false);
        }
        match self.choose(pace)? {
            Some(pid) => {
                self.print_turn(pid, printed)?;
                printed.turns = printed.turns.saturating_add(1);
                Ok(!self.is_there(pace, out))
            }
            None => Ok(false),
        }
    }

    // Takes turns, as far as that can be done, and prints each; and returns whether they ended because there were too many.
    fn take_most(&mut self, pace: Pace, printed: &mut Printed) -> Result<bool, PlayFault> {
        let out = self.kernel().out().len();
        for _ in 0..MOST_TURNS {
            if !self.take_turn(pace, out, printed)? {
                return Ok(false);
            }
        }
        Ok(true)
    }

    // Takes turns, as far as that can be done, and prints each.
    pub(crate) fn take_turns(&mut self, pace: Pace) -> Result<Printed, PlayFault> {
        let mut printed = Printed {
            text: Text::new(self.alloc),
            records: Vec::new(self.alloc),
            turns: 0,
            is_cut: false,
        };
        let is_cut = self.take_most(pace, &mut printed)?;
        printed.is_cut = is_cut;
        Ok(printed)
    }
}

// The slot of this number.
pub(crate) fn pid_of(number: u64) -> Option<Pid> {
    Pid::new(usize::try_from(number).ok()?)
}

// Which events come behind so many.
fn add_event_numbers(text: &mut Text, first: u64) {
    text.add("event ");
    text.number(first.saturating_add(1));
    text.byte(b'-');
    text.number(first.saturating_add(2));
    text.add(": ");
}

// Lets an event happen in the narrator's kernel, with its record; `None` where it can't.
fn happen<M: Machine>(
    narrator: &mut Narrator<'_, M>,
    event: Event,
    lines: Vec<u8>,
) -> Result<Option<Vec<u8>>, AllocError> {
    match event {
        Event::Dispatch(_, number) => match Pid::new(number as usize) {
            Some(pid) => narrator.dispatch(pid, lines),
            None => Ok(None),
        },
        Event::Trap(_, number) => match Pid::new(number as usize) {
            Some(pid) => narrator.trap(pid, lines),
            None => Ok(None),
        },
    }
}
