//! What is shown of the states of a play.

ghost use Rattle.std.specs.Prelude.{◌≡◌, ◌++◌, ◌∷◌, [], IfOk, IfSome, IsSome, None, OnOk, Ok, All, Any, Contains, true, false};
ghost use Rattle.order_search.specs.After.{AreAlikeAfter, GivesWayAfter};
ghost use Rattle.every_order.specs.Rest.{TellsAfter};
ghost use Rattle.play_states.specs.Plays.{IsAlikeTo, IsCovered, IsLedTo, IsPlay, IsShown, LeadsTo, TellsAllAfter, BeginsWith};

use crate::fault::PlayFault;
use crate::ground::Ground;
use crate::places::places_of;
use crate::spots::{Budget, Play, Shown, Spot, Turn};
use every_order::{Exploration, Outcome, Unwatched, Watch, explore_after};
use law_turns::every_outcome::kernels_with_the_same_key_have_the_same_outcomes;
use mem_files::laws::are_files;
use std::alloc::{AllocError, Allocator, Global};
use user_calls::Machine;

// These processes, and then this one.
fn longer(alloc: Global, pids: &[u8], pid: u8) -> Result<Vec<u8>, AllocError>
    ensures { IfOk result (λ longer. longer.items ≡ pids.now ++ pid ∷ []) }
{
    let mut longer = Vec::with_capacity(alloc, pids.len().saturating_add(1))?;
    longer.extend_from_slice(pids)?;
    longer.push(pid)?;
    Ok(longer)
}

// Whether these turns come first.
fn begins_with(pids: &[u8], turns: &[u8]) -> bool
    ensures { result ≡ true → BeginsWith turns.now pids.now }
{
    if pids.len() < turns.len() {
        return false;
    }
    &pids[..turns.len()] == turns
}

// Whether the place is one of these.
fn has_place(places: &[usize], place: usize) -> bool
    ensures { result ≡ true → Contains places.now place }
{
    for other in places {
        if *other == place {
            return true;
        }
    }
    false
}

// Whether the turn leads to a state of which the outcome of that place can still come.
fn leads_to(shown: &[Shown], turn: Turn, place: usize) -> bool
    ensures { result ≡ true → LeadsTo shown.now place turn }
{
    let next = turn.next;
    if next >= shown.len() {
        return false;
    }
    has_place(&shown[next].possible, place)
}

// Whether one of the turns does.
fn is_led_to(shown: &[Shown], turns: &[Turn], place: usize) -> bool
    ensures { result ≡ true → Any (LeadsTo shown.now place) turns.now }
{
    for turn in turns {
        if leads_to(shown, *turn, place) {
            return true;
        }
    }
    false
}

// Whether for each of these places one of the turns does.
fn are_led_to(shown: &[Shown], turns: &[Turn], places: &[usize]) -> bool
    ensures { result ≡ true → All (IsLedTo shown.now turns.now) places.now }
{
    for place in places {
        if !is_led_to(shown, turns, *place) {
            return false;
        }
    }
    true
}

// Whether no turn that isn't offered can add an outcome.
fn is_covered(shown: &[Shown], it: &Shown) -> bool
    ensures { result ≡ true → IsCovered shown.now it.now }
{
    if it.spot.is_cut {
        return true;
    }
    if it.spot.turns.is_empty() {
        return it.possible.len() <= 1;
    }
    are_led_to(shown, &it.spot.turns, &it.possible)
}

// The same of all states.
fn are_covered(shown: &[Shown]) -> bool
    ensures { result ≡ true → All (IsCovered shown.now) shown.now }
{
    for it in shown {
        if !is_covered(shown, it) {
            return false;
        }
    }
    true
}

// Whether all processes can come to sleep after these turns.
fn sleeps_after(found: &Exploration, pids: &[u8]) -> Result<bool, PlayFault>
    ensures awake { result ≡ Ok false → found.now.stuck ≡ None }
    ensures asleep { result ≡ Ok true → IsSome found.now.stuck }
    ensures goes_on { IfOk result (λ _. IfSome found.now.stuck (λ way. BeginsWith pids.now way.items)) }
{
    match &found.stuck {
        None => Ok(false),
        Some(way) => {
            if begins_with(way, pids) {
                Ok(true)
            } else {
                Err(PlayFault::Astray)
            }
        }
    }
}

fn push_shown(shown: &mut Vec<Shown>, it: Shown) -> Result<(), AllocError>
    ensures { OnOk result (shown.new.items ≡ shown.old.items ++ it ∷ []) }
{
    shown.push(it)?;
    Ok(())
}

impl<'t, M: Machine, C: Allocator> Ground<'t, M, C> {
    /// Whether turns of these processes and turns of those were seen to lead to kernels that differ only in who sleeps, in the numbers of
    /// open-file entries, in what pipes are called and in how many events there were. `false` is always right.
    ///
    /// The fault is `TooLong` where one of the turns can't be taken.
    pub fn are_alike(&self, alloc: Global, pids: &[u8], others: &[u8]) -> Result<bool, PlayFault>
        ensures { result ≡ Ok true → AreAlikeAfter M.call_of M.next_of self.now pids.now others.now }
    {
        let alike = every_order::are_alike(alloc, &self.origin, pids, others)?;
        Ok(alike)
    }

    /// A process whose turn gives way to nobody's after turns of these processes, if one was found: it is enough to offer that turn. `None`
    /// is always right.
    ///
    /// The fault is `TooLong` where one of the turns can't be taken.
    pub fn only_after(&self, alloc: Global, pids: &[u8]) -> Result<Option<usize>, PlayFault>
        ensures { IfOk result (λ found. IfSome found (GivesWayAfter M.call_of M.next_of self.now pids.now)) }
    {
        let only = every_order::only_after(alloc, &self.origin, pids)?;
        Ok(only)
    }

    /// What can come after turns of these processes, through at most so many states.
    ///
    /// The fault is `Many` where there are more, and `TooLong` where one of the turns can't be taken.
    pub fn rest_after(
        &self,
        alloc: Global,
        pids: &[u8],
        states: usize,
    ) -> Result<Exploration, PlayFault>
        ensures { IfOk result (TellsAllAfter M.call_of M.next_of self.now pids.now) }
    {
        let found = explore_after(alloc, &self.origin, pids, states, &mut Unwatched)?;
        if !found.whole {
            return Err(PlayFault::Many(found.states));
        }
        Ok(found)
    }

    // What is shown of a state.
    fn show(&self, budget: Budget, outcomes: &[Outcome], spot: Spot) -> Result<Shown, PlayFault>
        ensures { IfOk result (IsShown M.call_of M.next_of self.now outcomes.now) }
    {
        let found = self.rest_after(budget.alloc, &spot.pids, budget.states)?;
        let possible = places_of(budget.alloc, outcomes, &found.outcomes)?;
        let sleeps = sleeps_after(&found, &spot.pids)?;
        let only = self.only_after(budget.alloc, &spot.pids)?;
        Ok(Shown {
            spot,
            possible,
            sleeps,
            only,
        })
    }

    // What is shown of each.
    fn show_all<W: Watch>(
        &self,
        budget: Budget,
        outcomes: &[Outcome],
        spots: Vec<Spot>,
        watch: &mut W,
    ) -> Result<Vec<Shown>, PlayFault>
        ensures { IfOk result (λ shown. All (IsShown M.call_of M.next_of self.now outcomes.now) shown.items) }
    {
        let mut shown = Vec::new(budget.alloc);
        for spot in spots {
            if !watch.found(shown.len()) {
                return Err(PlayFault::Many(shown.len()));
            }
            let it = self.show(budget, outcomes, spot)?;
            push_shown(&mut shown, it)?;
        }
        watch.ended();
        Ok(shown)
    }

    // Sees that the turn, after those that lead to the state, leads to one that is like the one that is said to be next.
    fn check_turn(
        &self,
        alloc: Global,
        shown: &[Shown],
        pids: &[u8],
        turn: Turn,
    ) -> Result<(), PlayFault>
        ensures { OnOk result (IsAlikeTo M.call_of M.next_of self.now shown.now pids.now turn) }
    {
        let place = turn.next;
        if place >= shown.len() {
            return Err(PlayFault::Astray);
        }
        let longer = longer(alloc, pids, turn.pid)?;
        let alike = self.are_alike(alloc, &shown[place].spot.pids, &longer)?;
        if !alike {
            return Err(PlayFault::Astray);
        }
        Ok(())
    }

    // The same of these turns.
    fn check_turns(
        &self,
        alloc: Global,
        shown: &[Shown],
        pids: &[u8],
        turns: &[Turn],
    ) -> Result<(), PlayFault>
        ensures { OnOk result (All (IsAlikeTo M.call_of M.next_of self.now shown.now pids.now) turns.now) }
    {
        for turn in turns {
            self.check_turn(alloc, shown, pids, *turn)?;
        }
        Ok(())
    }

    // The same of the turns of all states.
    fn check_all_turns(&self, alloc: Global, shown: &[Shown]) -> Result<(), PlayFault>
        ensures { OnOk result (All (λ s. All (IsAlikeTo M.call_of M.next_of self.now shown.now s.spot.pids.items) s.spot.turns.items) shown.now) }
    {
        for it in shown {
            self.check_turns(alloc, shown, &it.spot.pids, &it.spot.turns)?;
        }
        Ok(())
    }

    /// Shows of each of these states which of the outcomes can still come of it, and whether all processes can come to sleep, through at
    /// most as many states after each as the budget has. `watch` sees how many states were shown so, each time before one more is.
    ///
    /// The outcomes that are shown of a state are those of all finished runs that go on after its turns, in any order and on any harts, at
    /// which memory is never refused or nothing is full; and so they are after each turn that is offered there (`IsPlay`). Each
    /// outcome of a state that isn't cut can come after one of the turns that are offered there, so that no other one can add any.
    ///
    /// The fault is `Many` where a state leads to more states, or `watch` ends it; `Astray` where one can come to an outcome that isn't listed, where a turn
    /// leads elsewhere than is said, or where a turn that isn't offered could add an outcome.
    pub fn tell<W: Watch>(
        &self,
        budget: Budget,
        outcomes: Vec<Outcome>,
        spots: Vec<Spot>,
        watch: &mut W,
    ) -> Result<Play, PlayFault>
        ensures { IfOk result (IsPlay M.call_of M.next_of self.now) }
    {
        are_files(self.origin.files);
        kernels_with_the_same_key_have_the_same_outcomes::<M>();
        let shown = self.show_all(budget, &outcomes, spots, watch)?;
        self.check_all_turns(budget.alloc, &shown)?;
        if !are_covered(&shown) {
            return Err(PlayFault::Astray);
        }
        Ok(Play { outcomes, shown })
    }
}
