//! Places of commands in a script.

use sh_tree::Cmd;
use std::alloc::Allocator;

// Where a command stands in its script. Two commands of one script are compared by their places alone.
#[derive(Clone, Copy)]
pub struct Place {
    // How many lines the script has from the command's own on.
    lines: usize,
    // How many commands of the line come before it, where each comes before its parts, and left parts before right.
    before: usize,
}

impl Place {
    ghost use Rattle.std.specs.Prelude.{◌≡◌, ◌↔◌, ◌^◌, ◌≤◌, IsTrue, IfSome, IfNone};
    ghost use Rattle.sh_tree.specs.Tree.{tree_of};
    ghost use Rattle.sh_machine.specs.Place.{IsLater, SamePlace, size_of};

    // The place of a whole line, with which so many lines are left.
    pub fn of_line(lines: usize) -> Self
        ensures { result ≡ record { lines = lines; before = 0 } }
    {
        Place { lines, before: 0 }
    }

    // The place so many commands later in the line.
    pub fn later(place: Option<Place>, count: usize) -> Option<Place>
        ensures { IsLater place count result }
    {
        let Some(place) = place else {
            return None;
        };
        let Some(before) = place.before.checked_add(count) else {
            return None;
        };
        Some(Place {
            lines: place.lines,
            before,
        })
    }

    // Whether both places are known, and one.
    pub fn is_known_as(place: Option<Place>, other: Option<Place>) -> bool
        ensures { IsTrue result ↔ SamePlace place other }
    {
        match (place, other) {
            (Some(place), Some(other)) => {
                place.lines == other.lines && place.before == other.before
            }
            _ => false,
        }
    }

    // The place behind a tree that stands at this one.
    pub fn behind<A: Allocator>(place: Option<Place>, tree: &Cmd<A>) -> Option<Place>
        ensures { IsLater place (size_of (tree_of tree.now)) result }
    {
        let Some(size) = Place::size(tree) else {
            return None;
        };
        Place::later(place, size)
    }

    // How many commands a tree has.
    fn size<A: Allocator>(tree: &Cmd<A>) -> Option<usize>
        ensures value { IfSome result (λ size. size ≡ size_of (tree_of tree.now)) }
        ensures far { IfNone result (2 ^ 64 ≤ size_of (tree_of tree.now)) }
    {
        match tree {
            Cmd::Exec(_) => Some(1),
            Cmd::Redir { body, .. } => Place::size(body)?.checked_add(1),
            Cmd::Pipe(left, right) => Place::size(left)?
                .checked_add(Place::size(right)?)?
                .checked_add(1),
            Cmd::List(left, right) => Place::size(left)?
                .checked_add(Place::size(right)?)?
                .checked_add(1),
            Cmd::Back(body) => Place::size(body)?.checked_add(1),
        }
    }
}
