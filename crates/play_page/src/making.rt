//! From a script to its page.

ghost use Rattle.std.specs.Prelude.{◌≡◌};
ghost use Rattle.script_load.specs.Line.{lines_of};

use crate::fault::PageFault;
use crate::page::{Beginning, Words, page_of};
use crate::walk::{Reach, Walk};
use play_states::{
    Budget, Exploration, Extent, Ground, Outcome, Play, Setting, Watch, explore_watched,
};
use script_outcomes::sorted;
use sh_machine::{Naming, User};
use std::alloc::{Allocator, Global};
use std::marker::Brand;
use step_answers::Scene;
use user_calls::Machine;

/// How much is searched and shown.
#[derive(Clone, Copy, Debug)]
pub struct Limits {
    /// The most states that a search may keep.
    pub states: usize,
    /// How many states are shown, about: those that follow without a choice come besides.
    pub shown: usize,
}

// About how many bytes the rows of a page take at most, so that the page has less than 1,000,000 bytes (own).
const MOST_BYTES: usize = 850_000;

// Of a script with at most so many states every turn is shown, if that makes at most so many states (own).
const FEW_STATES: usize = 100;

const FEW_SHOWN: usize = 600;

// What can still come is found for each state that is shown, by a search of its own. So many states are tried by these at most, if each
// were as long as that from the start, so that a page takes seconds and no hours; but some states are shown of every script (own).
const MOST_TRIED: usize = 1_500_000;

const FEWEST_SHOWN: usize = 100;

// A walk over the states that reaches so far.
fn walked<'w, 't, M: Machine, C: Allocator, W: Watch>(
    alloc: Global,
    ground: &'w Ground<'t, M, C>,
    scene: &'w Scene<'t, M>,
    reach: Reach,
    watch: &mut W,
) -> Result<Walk<'w, 't, M, C>, PageFault> {
    let mut walk = Walk::new(alloc, ground, scene, reach);
    walk.go(watch)?;
    Ok(walk)
}

// A walk over the states of a script that has so many, with every turn where that makes few of them.
fn walk_over<'w, 't, M: Machine, C: Allocator, W: Watch>(
    ground: &'w Ground<'t, M, C>,
    scene: &'w Scene<'t, M>,
    making: &Making<'_>,
    states: usize,
    watch: &mut W,
) -> Result<Walk<'w, 't, M, C>, PageFault> {
    if states <= FEW_STATES {
        let walk = walked(
            making.alloc,
            ground,
            scene,
            making.reach(states, true),
            watch,
        )?;
        if walk.is_whole() {
            return Ok(walk);
        }
    }
    walked(
        making.alloc,
        ground,
        scene,
        making.reach(states, false),
        watch,
    )
}

// What is shown of the states of the walk.
fn play_of<M: Machine, C: Allocator, W: Watch>(
    ground: &Ground<'_, M, C>,
    walk: &Walk<'_, '_, M, C>,
    outcomes: Vec<Outcome>,
    making: &Making<'_>,
    watch: &mut W,
) -> Result<Play, PageFault> {
    let spots = walk.spots()?;
    let outcomes = sorted(making.alloc, outcomes)?;
    let play = ground.tell(making.budget(), outcomes, spots, watch)?;
    Ok(play)
}

// The page of what was found.
fn page_by<'b, M: Machine, C: Allocator, W: Watch>(
    ground: &Ground<'b, M, C>,
    scene: &Scene<'b, M>,
    found: Exploration,
    making: &Making<'b>,
    watch: &mut W,
) -> Result<Vec<u8>, PageFault> {
    let Exploration {
        whole,
        stopped: _,
        states,
        outcomes,
        stuck,
    } = found;
    if !whole {
        return Err(PageFault::Many(states));
    }
    let mut walk = walk_over(ground, scene, making, states, watch)?;
    let play = play_of(ground, &walk, outcomes, making, watch)?;
    let beginning = Beginning {
        words: making.words,
        stdin: scene.stdin,
        files: scene.files,
        states,
        stuck: match &stuck {
            Some(way) => Some(way.as_slice()),
            None => None,
        },
    };
    page_of(&mut walk, &play, &beginning)
}

// How many states are shown at most of a script with so many.
fn most_shown(states: usize) -> usize {
    (MOST_TRIED / states.max(1)).max(FEWEST_SHOWN)
}

// What is asked for.
#[derive(Clone, Copy)]
struct Making<'a> {
    alloc: Global,
    words: &'a Words<'a>,
    limits: Limits,
}

impl Making<'_> {
    // What the searches may take.
    fn budget(&self) -> Budget {
        Budget {
            alloc: self.alloc,
            states: self.limits.states,
        }
    }

    // How far to walk.
    fn reach(&self, states: usize, is_full: bool) -> Reach {
        Reach {
            most: if is_full {
                FEW_SHOWN
            } else {
                self.limits.shown.min(most_shown(states))
            },
            bytes: MOST_BYTES,
            is_full,
        }
    }
}

// The page of the script that `N` names.
fn page_named<'b, N: Naming, W: Watch>(
    setting: &Setting<'b, Global, Global>,
    making: &Making<'b>,
    watch: &mut W,
) -> Result<Vec<u8>, PageFault>
    requires { lines_of setting.now.script.now.lines ≡ N.script }
{
    let ground = Ground::<User<Global, N>, Global>::of_script(setting);
    let scene = Scene {
        init: User::<Global, N>::init(),
        shell: User::shell(setting.script),
        script: setting.script,
        stdin: setting.stdin,
        files: setting.files,
    };
    let extent = Extent {
        states: making.limits.states,
        is_full: false,
    };
    let found = explore_watched(making.alloc, setting, extent, watch)?;
    page_by(&ground, &scene, found, making, watch)
}

/// The page of a script, in which its reader chooses who goes next. `watch` sees how far it is.
///
/// `Many` where the script leads to more states than may be kept.
pub fn play_page<'b, W: Watch>(
    alloc: Global,
    setting: &Setting<'b, Global, Global>,
    words: &'b Words<'b>,
    limits: Limits,
    watch: &mut W,
) -> Result<Vec<u8>, PageFault> {
    let making = Making {
        alloc,
        words,
        limits,
    };
    page_named::<Brand, W>(setting, &making, watch)
}
