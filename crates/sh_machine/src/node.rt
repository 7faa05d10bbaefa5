//! Commands of the script, each with its place.

ghost use Rattle.sh_tree.specs.Tree.{tree_of};
ghost use Rattle.sh_machine.specs.Place.{IsPlaced, placed_fact};

use crate::naming::Naming;
use crate::place::Place;
use crate::rest::Rest;
use sh_lexer::Bytes;
use sh_tree::{Cmd, Mode, same};
use std::alloc::Allocator;
use std::marker::PhantomData;

// A command of the script that `N` names, and its place there. Two values of this type that have one place are one
// command, so their trees need not be compared. The place is unknown in a line of more commands than a number can count.
#[derive(Drop)]
pub struct Node<'t, A: Allocator, N: Naming> {
    tree: &'t Cmd<A>,
    place: Option<Place>,
    of: PhantomData<N>,
    ghost placed: { IsPlaced N.script place (tree_of tree.now) } by { placed_fact N.script place (tree_of tree.now) },
}

// A command by its kind, with its parts.
#[derive(Drop)]
pub enum Opened<'t, A: Allocator, N: Naming> {
    Exec(&'t [Bytes<A>]),
    Redir(Mode, &'t [u8], Node<'t, A, N>),
    Pipe(Node<'t, A, N>, Node<'t, A, N>),
    List(Node<'t, A, N>, Node<'t, A, N>),
    Back(Node<'t, A, N>),
}

impl<'t, A: Allocator, N: Naming> Node<'t, A, N> {
    ghost use Rattle.std.specs.Prelude.{◌≡◌, ◌↔◌, IsTrue, Some, slice_get};
    ghost use Rattle.sh_tree.specs.Tree.{tree_of};
    ghost use Rattle.script_load.specs.Line.{command};
    ghost use Rattle.sh_machine.specs.Place.{IsPlaced};
    ghost use Rattle.sh_machine.specs.View.{ArePlaced, rest_of, node_of, opened_of};

    // The command of the first of these lines.
    pub fn first(rest: &Rest<'t, A, N>, tree: &'t Cmd<A>) -> Self
        requires { slice_get (rest_of rest.now) 0 ≡ Some (command (tree_of tree.now)) }
        ensures { node_of result ≡ tree_of tree.now }
    {
        Node::at(tree, Some(Place::of_line(rest.lines().len())))
    }

    // The command at this place.
    fn at(tree: &'t Cmd<A>, place: Option<Place>) -> Self
        requires { IsPlaced N.script place (tree_of tree.now) }
        ensures tree { node_of result ≡ tree_of tree.now }
        ensures place { result.place ≡ place }
    {
        Node {
            tree,
            place,
            of: PhantomData,
        }
    }

    // The command by its kind. The right part's place is found by counting the left part's commands.
    pub fn open(&self) -> Opened<'t, A, N>
        ensures tree { opened_of result ≡ node_of self.now }
        ensures places { ArePlaced self.now.place result }
    {
        let next = Place::later(self.place, 1);
        match self.tree {
            Cmd::Exec(words) => Opened::Exec(words.as_slice()),
            Cmd::Redir { mode, name, body } => Opened::Redir(
                *mode,
                name.as_slice(),
                Node::at(body, next),
            ),
            Cmd::Pipe(left, right) => Opened::Pipe(
                Node::at(left, next),
                Node::at(right, Place::behind(next, left)),
            ),
            Cmd::List(left, right) => Opened::List(
                Node::at(left, next),
                Node::at(right, Place::behind(next, left)),
            ),
            Cmd::Back(body) => Opened::Back(Node::at(body, next)),
        }
    }

    /// An equal one.
    pub fn twin(&self) -> Self
        ensures tree { node_of result ≡ node_of self.now }
        ensures place { result.place ≡ self.now.place }
    {
        Node {
            tree: self.tree,
            place: self.place,
            of: PhantomData,
        }
    }

    // In constant time where the two stand at one place; elsewhere the trees are compared.
    pub fn same(&self, other: &Self) -> bool
        ensures { IsTrue result ↔ (node_of self.now ≡ node_of other.now) }
    {
        Place::is_known_as(self.place, other.place) || same(self.tree, other.tree)
    }
}
