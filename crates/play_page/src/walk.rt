//! The states of a script's run, walked over.

use crate::book::Book;
use crate::deeds::deed_of;
use crate::fault::PageFault;
use crate::follow::Follow;
use crate::states::shown_of;
use play_states::{Ground, Spot, Turn, Watch};
use proc_table::{PROCS, Pid, State};
use std::alloc::{AllocError, Allocator, Global};
use std::collections::BTreeMap;
use step_answers::Scene;
use user_calls::Machine;

// A turn that is offered: whose, what it does, and the place of the state to which it leads.
#[derive(Clone, Copy)]
pub struct Edge {
    pub pid: u8,
    pub deed: usize,
    pub next: usize,
}

// A state: the processes of the turns that lead there, what is shown of it, and the turns that are offered there.
#[derive(Drop)]
pub struct Node {
    pub pids: Vec<u8>,
    pub shown: Vec<u8>,
    pub edges: Vec<Edge>,
    // A process that goes on without a choice.
    pub only: Option<usize>,
    pub is_cut: bool,
}

// How far to walk.
#[derive(Clone, Copy)]
pub struct Reach {
    // How many states are shown at most, but for those that follow one of them without a choice; and about how many bytes.
    pub most: usize,
    pub bytes: usize,
    // Whether every turn is offered.
    pub is_full: bool,
}

// A walk over the states.
#[derive(Drop)]
pub struct Walk<'w, 't, M: Machine, C: Allocator> {
    alloc: Global,
    ground: &'w Ground<'t, M, C>,
    scene: &'w Scene<'t, M>,
    reach: Reach,
    pub book: Book,
    pub nodes: Vec<Node>,
    // About how many bytes the rows of states take.
    size: usize,
    places: BTreeMap<Vec<u8>, Vec<usize>>,
    pub is_cut: bool,
}

// These processes, and then this one.
fn longer(alloc: Global, pids: &[u8], pid: u8) -> Result<Vec<u8>, AllocError> {
    let mut longer = Vec::with_capacity(alloc, pids.len().saturating_add(1))?;
    longer.extend_from_slice(pids)?;
    longer.push(pid)?;
    Ok(longer)
}

fn slot_of(pid: u8) -> Result<Pid, PageFault> {
    match Pid::new(usize::from(pid)) {
        Some(pid) => Ok(pid),
        None => Err(PageFault::Astray),
    }
}

// The kernel takes turns of these processes.
fn take_turns<M: Machine>(follow: &mut Follow<'_, M>, pids: &[u8]) -> Result<(), PageFault> {
    for pid in pids {
        let pid = slot_of(*pid)?;
        follow.turn(pid)?;
    }
    Ok(())
}

fn is_over<M: Machine>(follow: &Follow<'_, M>) -> bool {
    follow.kernel().is_finished()
}

// The process, if there is but one.
fn alone_in(offered: &[u8]) -> Option<usize> {
    match offered {
        [one] => Some(usize::from(*one)),
        _ => None,
    }
}

// The turns, as they are to be shown.
fn turns_of(alloc: Global, edges: &[Edge]) -> Result<Vec<Turn>, AllocError> {
    let mut turns = Vec::new(alloc);
    for edge in edges {
        turns.push(Turn {
            pid: edge.pid,
            next: edge.next,
        })?;
    }
    Ok(turns)
}

// The state, as it is to be shown.
fn spot_of(alloc: Global, node: &Node) -> Result<Spot, AllocError> {
    let turns = turns_of(alloc, &node.edges)?;
    let pids = Vec::from_slice(alloc, &node.pids)?;
    Ok(Spot {
        pids,
        turns,
        is_cut: node.is_cut,
    })
}

impl<'w, 't, M: Machine, C: Allocator> Walk<'w, 't, M, C> {
    pub fn new(
        alloc: Global,
        ground: &'w Ground<'t, M, C>,
        scene: &'w Scene<'t, M>,
        reach: Reach,
    ) -> Self {
        Walk {
            alloc,
            ground,
            scene,
            reach,
            book: Book::new(alloc),
            nodes: Vec::new(alloc),
            size: 0,
            places: BTreeMap::new(alloc),
            is_cut: false,
        }
    }

    // Whether every turn is offered, and no state is cut.
    pub fn is_whole(&self) -> bool {
        self.reach.is_full && !self.is_cut
    }

    // A kernel after turns of these processes.
    pub fn replay(&self, pids: &[u8]) -> Result<Follow<'t, M>, PageFault> {
        let mut follow = Follow::start(self.alloc, self.scene)?;
        take_turns(&mut follow, pids)?;
        Ok(follow)
    }

    // Whether the kernel after these turns is like that of the state of that place.
    fn is_alike(&self, pids: &[u8], place: usize) -> Result<bool, PageFault> {
        let Some(node) = self.nodes.get(place) else {
            return Ok(false);
        };
        let alike = self.ground.are_alike(self.alloc, pids, &node.pids)?;
        Ok(alike)
    }

    // The place of a state that is shown so, of which the kernel is like that after these turns, if there is one.
    fn find(&self, pids: &[u8], shown: &Vec<u8>) -> Result<Option<usize>, PageFault> {
        let Some(places) = self.places.get(shown) else {
            return Ok(None);
        };
        for place in places {
            if self.is_alike(pids, *place)? {
                return Ok(Some(*place));
            }
        }
        Ok(None)
    }

    // The places of the states that are shown so, which are taken out.
    fn take_places(&mut self, shown: &Vec<u8>) -> Vec<usize> {
        match self.places.remove(shown) {
            Some(places) => places,
            None => Vec::new(self.alloc),
        }
    }

    // Keeps the place of a state that is shown so.
    fn keep_place(&mut self, shown: &[u8], place: usize) -> Result<(), AllocError> {
        let key = Vec::from_slice(self.alloc, shown)?;
        let mut places = self.take_places(&key);
        places.push(place)?;
        self.places.insert(key, places)?;
        Ok(())
    }

    // Adds the state after these turns, and returns its place.
    fn add(&mut self, pids: Vec<u8>, shown: Vec<u8>) -> Result<usize, AllocError> {
        let place = self.nodes.len();
        self.keep_place(&shown, place)?;
        self.size = self.size.saturating_add(shown.len()).saturating_add(16);
        self.nodes.push(Node {
            pids,
            shown,
            edges: Vec::new(self.alloc),
            only: None,
            is_cut: false,
        })?;
        Ok(place)
    }

    // The place of the state after these turns, which is shown so, and whether it is new.
    fn place_of(&mut self, pids: Vec<u8>, shown: Vec<u8>) -> Result<(usize, bool), PageFault> {
        if let Some(place) = self.find(&pids, &shown)? {
            return Ok((place, false));
        }
        let place = self.add(pids, shown)?;
        Ok((place, true))
    }

    // A process that goes on without a choice after these turns, if one was found.
    fn only_after(&self, pids: &[u8]) -> Result<Option<usize>, PageFault> {
        let only = self.ground.only_after(self.alloc, pids)?;
        Ok(only)
    }

    // The processes whose turns are offered where this one goes on without a choice, if one does.
    fn offered_by(
        &self,
        follow: &Follow<'t, M>,
        only: Option<usize>,
    ) -> Result<Vec<u8>, AllocError> {
        let mut offered = Vec::new(self.alloc);
        for index in 0..PROCS {
            let is_one = match only {
                Some(only) if !self.reach.is_full => only == index,
                _ => self.is_offered(follow, index),
            };
            if is_one {
                offered.push(index as u8)?;
            }
        }
        Ok(offered)
    }

    // The processes whose turns are offered after these turns, and one that goes on without a choice.
    fn offered(
        &self,
        follow: &Follow<'t, M>,
        pids: &[u8],
    ) -> Result<(Vec<u8>, Option<usize>), PageFault> {
        if is_over(follow) {
            return Ok((Vec::new(self.alloc), None));
        }
        let only = self.only_after(pids)?;
        let offered = self.offered_by(follow, only)?;
        let only = only.or(alone_in(&offered));
        Ok((offered, only))
    }

    // Whether the process can take a turn that does more than put it to sleep; with every turn, whether it can take one.
    fn is_offered(&self, follow: &Follow<'t, M>, index: usize) -> bool {
        match Pid::new(index) {
            Some(pid) => {
                matches!(follow.kernel().state(pid), State::Runnable)
                    && (self.reach.is_full || !follow.would_sleep(pid))
            }
            None => false,
        }
    }

    // Adds a turn to those that are offered at the state of that place.
    fn add_edge(&mut self, place: usize, edge: Edge) -> Result<(), AllocError> {
        self.size = self.size.saturating_add(12);
        if let Some(node) = self.nodes.get_mut(place) {
            node.edges.push(edge)?;
        }
        Ok(())
    }

    // Takes a turn of the process at the state of that place, at which this kernel is, and returns the place of the next one, and whether
    // it is new.
    fn step(
        &mut self,
        follow: &mut Follow<'t, M>,
        place: usize,
        pids: &[u8],
        pid: u8,
    ) -> Result<(usize, bool), PageFault> {
        let slot = slot_of(pid)?;
        let deed = deed_of(&mut self.book, follow, slot)?;
        let shown = shown_of(&mut self.book, follow)?;
        let after = longer(self.alloc, pids, pid)?;
        let (next, is_new) = self.place_of(after, shown)?;
        self.add_edge(place, Edge { pid, deed, next })?;
        Ok((next, is_new))
    }

    // The same, of a kernel that is made for it.
    fn step_anew(
        &mut self,
        place: usize,
        pids: &[u8],
        pid: u8,
    ) -> Result<(usize, bool), PageFault> {
        let mut follow = self.replay(pids)?;
        self.step(&mut follow, place, pids, pid)
    }

    // Whether no more states are to be followed.
    fn is_full(&self) -> bool {
        let bytes = self.size.saturating_add(self.book.size());
        self.nodes.len() >= self.reach.most || bytes >= self.reach.bytes
    }

    // The turns at the state of that place are followed, and those without a choice behind it. The places of states at which there is a
    // choice, or may be one, are added to `ahead`.
    fn follow_from(&mut self, place: usize, ahead: &mut Vec<usize>) -> Result<(), PageFault> {
        let pids = self.pids_of(place)?;
        let mut follow = self.replay(&pids)?;
        self.go_on(&mut follow, place, ahead)
    }

    // The same with a kernel that is at the state.
    fn go_on(
        &mut self,
        follow: &mut Follow<'t, M>,
        first: usize,
        ahead: &mut Vec<usize>,
    ) -> Result<(), PageFault> {
        let mut place = first;
        for _ in 0..1_000_000 {
            match self.go_past(follow, place, ahead)? {
                Some(next) => place = next,
                None => return Ok(()),
            }
        }
        Err(PageFault::TooLong)
    }

    // The turns at the state of that place, at which this kernel is, are followed. The place of the state behind it, where the kernel is then,
    // if there was no choice and that state is new.
    fn go_past(
        &mut self,
        follow: &mut Follow<'t, M>,
        place: usize,
        ahead: &mut Vec<usize>,
    ) -> Result<Option<usize>, PageFault> {
        let pids = self.pids_of(place)?;
        let (offered, only) = self.offered(follow, &pids)?;
        self.keep_only(place, only);
        match offered.as_slice() {
            [] => Ok(None),
            [one] => {
                let (next, is_new) = self.step(follow, place, &pids, *one)?;
                Ok(if is_new { Some(next) } else { None })
            }
            _ => {
                self.branch(follow, place, &offered, ahead)?;
                Ok(None)
            }
        }
    }

    fn pids_of(&self, place: usize) -> Result<Vec<u8>, PageFault> {
        match self.nodes.get(place) {
            Some(node) => Ok(Vec::from_slice(self.alloc, &node.pids)?),
            None => Err(PageFault::Astray),
        }
    }

    // At the state of that place this process goes on without a choice, if one does.
    fn keep_only(&mut self, place: usize, only: Option<usize>) {
        if let Some(node) = self.nodes.get_mut(place) {
            node.only = only;
        }
    }

    // The state of that place is cut.
    fn cut(&mut self, place: usize) {
        self.is_cut = true;
        if let Some(node) = self.nodes.get_mut(place) {
            node.is_cut = true;
        }
    }

    // The turns of a choice at the state of that place, at which this kernel is, are followed, or the state is cut where there is no more
    // room.
    fn branch(
        &mut self,
        follow: &mut Follow<'t, M>,
        place: usize,
        offered: &[u8],
        ahead: &mut Vec<usize>,
    ) -> Result<(), PageFault> {
        if self.is_full() {
            self.cut(place);
            return Ok(());
        }
        let pids = self.pids_of(place)?;
        for (at, pid) in offered.iter().enumerate() {
            let (next, is_new) = if at == 0 {
                self.step(follow, place, &pids, *pid)?
            } else {
                self.step_anew(place, &pids, *pid)?
            };
            if is_new {
                ahead.push(next)?;
            }
        }
        Ok(())
    }

    // Adds the state at the start, and returns its place.
    fn begin(&mut self) -> Result<usize, PageFault> {
        let start = self.replay(&[])?;
        let shown = shown_of(&mut self.book, &start)?;
        let first = self.add(Vec::new(self.alloc), shown)?;
        Ok(first)
    }

    // Walks from the start, the nearest choices first; with every turn only until a state is cut, since then there is no such page.
    // `watch` gets how many states were found.
    pub fn go<W: Watch>(&mut self, watch: &mut W) -> Result<(), PageFault> {
        let mut ahead = Vec::new(self.alloc);
        ahead.push(self.begin()?)?;
        let mut at: usize = 0;
        for _ in 0..u64::MAX {
            let Some(place) = ahead.get(at).copied() else {
                break;
            };
            if self.is_cut && self.reach.is_full {
                break;
            }
            if !watch.found(self.nodes.len()) {
                return Err(PageFault::Many(self.nodes.len()));
            }
            self.follow_from(place, &mut ahead)?;
            at = at.saturating_add(1);
        }
        watch.ended();
        Ok(())
    }

    // The states as they are to be shown.
    pub fn spots(&self) -> Result<Vec<Spot>, AllocError> {
        let mut spots = Vec::new(self.alloc);
        for node in &self.nodes {
            spots.push(spot_of(self.alloc, node)?)?;
        }
        Ok(spots)
    }
}
