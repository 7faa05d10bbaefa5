//! The search.

ghost use Rattle.std.specs.Prelude.{◌≡◌, ℕ, ◌<◌, ◌≤◌, Some, None, Ok, IfOk, IfSome, OnOk, All, length, map, slice_index_or, option_map, true, false, [], ◌∷◌, ◌++◌};
ghost use Rattle.closed_search.specs.Searched.{HasLike, IsLedOn, IsLed, IsExpanded, IsReached, IsLonger, IsReducedUnder};

use crate::indexes::Index;
use crate::nodes::Node;
use crate::watches::Watch;
use std::alloc::{AllocError, Global};

/// What a search found.
#[derive(Drop)]
pub struct Found<T: Node> {
    /// The nodes, in the order in which they were found: those that fewer moves lead to come first.
    pub nodes: Vec<T>,
    /// Whether the search went to its end, so that nothing else is reached.
    pub whole: bool,
    /// Whether the watch stopped it.
    pub stopped: bool,
}

/// How far a search may go.
#[derive(Clone, Copy, Debug)]
pub struct Bounds {
    /// How many moves are tried in each state: those whose numbers are below this.
    pub moves: usize,
    /// With how many nodes it goes on. With more it stops.
    pub limit: usize,
    /// How many private moves are made in a row at most, before a node is kept.
    pub chain: usize,
}

// The nodes that were found so far, and their places by digest.
#[derive(Drop)]
struct Pool<T: Node> {
    nodes: Vec<T>,
    index: Index,
}

impl<T: Node> Pool<T> {
    ghost use Rattle.std.specs.Prelude.{◌≡◌, []};

    // No nodes.
    fn new(alloc: Global) -> Pool<T>
        ensures { result.nodes.items ≡ [] }
    {
        Pool {
            nodes: Vec::new(alloc),
            index: Index::new(alloc),
        }
    }
}

// Whether the state of one of the nodes, of those with this digest, stands for the node's.
fn has_like<T: Node>(pool: &Pool<T>, node: &T, digest: u64) -> bool
    ensures { result ≡ true → HasLike T.stands (map T.state pool.now.nodes.items) (T.state node.now) }
{
    let mut found = pool.index.last(digest);
    while let Some(place) = found {
        if place < pool.nodes.len() && node.is_like(&pool.nodes[place]) {
            return true;
        }
        found = pool.index.older(place);
    }
    false
}

// The node, which has this digest, is added.
fn keep<T: Node>(pool: &mut Pool<T>, node: T, digest: u64) -> Result<(), AllocError>
    ensures { OnOk result (pool.new.nodes.items ≡ pool.old.nodes.items ++ node ∷ []) }
{
    pool.index.write(digest)?;
    pool.nodes.push(node)?;
    Ok(())
}

// The node is added, unless one stands for it.
fn add<T: Node>(pool: &mut Pool<T>, node: T) -> Result<(), T::Fault>
    ensures has { IfOk result (λ _. HasLike T.stands (map T.state pool.new.nodes.items) (T.state node)) }
    ensures grown { IfOk result (λ _. IsLonger (λ t. t ≡ T.state node) (map T.state pool.old.nodes.items) (map T.state pool.new.nodes.items)) }
{
    let digest = node.digest();
    if has_like(pool, &node, digest) {
        return Ok(());
    }
    keep(pool, node, digest)?;
    Ok(())
}

// The node after a private move, if one was found.
fn advance<T: Node>(node: &mut T, tools: &mut T::Tools) -> Result<Option<T>, T::Fault>
    ensures next { IfOk result (λ found. IfSome found (λ next. (move : ℕ) × T.private (T.state node.old) move × (T.step (T.state node.old) move ≡ Some (T.state next)))) }
    ensures same { T.state node.new ≡ T.state node.old }
{
    match node.private_move() {
        None => Ok(None),
        Some(step_number) => node.after(tools, step_number),
    }
}

// The node after private moves, as many as are found in a row, up to so many.
fn settle<T: Node>(first: T, tools: &mut T::Tools, chain: usize) -> Result<T, T::Fault>
    ensures { IfOk result (λ node. IsLedOn T.step T.private (T.state first) (T.state node)) }
{
    let mut node = first;
    for _ in 0..chain {
        match advance(&mut node, tools)? {
            None => return Ok(node),
            Some(next) => node = next,
        }
    }
    Ok(node)
}

// The node after private moves of this one is added, unless one stands for it.
fn add_settled<T: Node>(
    pool: &mut Pool<T>,
    tools: &mut T::Tools,
    node: T,
    chain: usize,
) -> Result<(), T::Fault>
    ensures has { IfOk result (λ _. IsLed T.step T.stands T.private (map T.state pool.new.nodes.items) (T.state node)) }
    ensures grown { IfOk result (λ _. IsLonger (λ t. IsReached T.step (T.state node) t) (map T.state pool.old.nodes.items) (map T.state pool.new.nodes.items)) }
{
    let settled = settle(node, tools, chain)?;
    add(pool, settled)
}

// The node after a move of the one at the place.
fn after_at<T: Node>(
    pool: &mut Pool<T>,
    tools: &mut T::Tools,
    place: usize,
    step_number: usize,
) -> Result<Option<T>, T::Fault>
    requires place { place < length pool.old.nodes.items }
    ensures next { IfOk result (λ found. (d : T.State) → option_map T.state found ≡ T.step (slice_index_or (map T.state pool.old.nodes.items) place d) step_number) }
    ensures same { map T.state pool.new.nodes.items ≡ map T.state pool.old.nodes.items }
{
    pool.nodes[place].after(tools, step_number)
}

// What the node after a move of the one at the place leads to is added, unless a node stands for it.
fn take_move<T: Node>(
    pool: &mut Pool<T>,
    tools: &mut T::Tools,
    place: usize,
    step_number: usize,
    chain: usize,
) -> Result<(), T::Fault>
    requires place { place < length pool.old.nodes.items }
    ensures has { IfOk result (λ _. (d t : T.State) → T.step (slice_index_or (map T.state pool.old.nodes.items) place d) step_number ≡ Some t → IsLed T.step T.stands T.private (map T.state pool.new.nodes.items) t) }
    ensures grown { IfOk result (λ _. IsLonger (λ t. (d : T.State) → IsReached T.step (slice_index_or (map T.state pool.old.nodes.items) place d) t) (map T.state pool.old.nodes.items) (map T.state pool.new.nodes.items)) }
{
    if pool.nodes[place].leads_nowhere(step_number) {
        return Ok(());
    }
    let found = after_at(pool, tools, place, step_number)?;
    match found {
        None => Ok(()),
        Some(node) => add_settled(pool, tools, node, chain),
    }
}

// What all moves of the one at the place lead to is added, each unless a node stands for it.
fn expand<T: Node>(
    pool: &mut Pool<T>,
    tools: &mut T::Tools,
    place: usize,
    bounds: Bounds,
) -> Result<(), T::Fault>
    requires place { place < length pool.old.nodes.items }
    ensures has { IfOk result (λ _. (d : T.State) → IsExpanded T.step T.stands T.private (map T.state pool.new.nodes.items) (slice_index_or (map T.state pool.old.nodes.items) place d) bounds.moves) }
    ensures grown { IfOk result (λ _. IsLonger (λ t. (d : T.State) → IsReached T.step (slice_index_or (map T.state pool.old.nodes.items) place d) t) (map T.state pool.old.nodes.items) (map T.state pool.new.nodes.items)) }
{
    for step_number in 0..bounds.moves {
        take_move(pool, tools, place, step_number, bounds.chain)?;
    }
    Ok(())
}

// What was found where the search didn't go to its end, and whether the watch stopped it.
fn part_of<T: Node>(pool: Pool<T>, stopped: bool) -> Found<T>
    ensures nodes { result.nodes ≡ pool.nodes }
    ensures part { result.whole ≡ false }
    ensures stopped { result.stopped ≡ stopped }
{
    let Pool { nodes, index: _ } = pool;
    Found {
        nodes,
        whole: false,
        stopped,
    }
}

// What was found where the search went to its end.
fn whole_of<T: Node>(pool: Pool<T>) -> Found<T>
    ensures nodes { result.nodes ≡ pool.nodes }
    ensures whole { result.whole ≡ true }
    ensures stopped { result.stopped ≡ false }
{
    let Pool { nodes, index: _ } = pool;
    Found {
        nodes,
        whole: true,
        stopped: false,
    }
}

// What `search` finds.
fn search_from<T: Node, W: Watch>(
    alloc: Global,
    tools: &mut T::Tools,
    start: T,
    bounds: Bounds,
    watch: &mut W,
) -> Result<Found<T>, T::Fault>
    ensures reached { IfOk result (λ found. All (IsReached T.step (T.state start)) (map T.state found.nodes.items)) }
    ensures whole { IfOk result (λ found. found.whole ≡ true → IsReducedUnder T.step T.stands T.private bounds.moves (T.state start) (map T.state found.nodes.items)) }
    ensures part { IfOk result (λ found. found.whole ≡ false → found.stopped ≡ false → bounds.limit < length found.nodes.items) }
    ensures stopped { IfOk result (λ found. found.stopped ≡ true → W.stopped watch.new) }
{
    let mut pool = Pool::new(alloc);
    let settled = settle(start, tools, bounds.chain)?;
    let digest = settled.digest();
    keep(&mut pool, settled, digest)?;
    let mut place = 0;
    while place < pool.nodes.len() {
        if bounds.limit < pool.nodes.len() {
            return Ok(part_of(pool, false));
        }
        if !watch.found(pool.nodes.len()) {
            return Ok(part_of(pool, true));
        }
        expand(&mut pool, tools, place, bounds)?;
        place += 1;
    }
    Ok(whole_of(pool))
}

/// Searches the states that the first `bounds.moves` moves lead to from the start, breadth first. It stops, with a part, once
/// it found more than `bounds.limit` nodes, or `watch` stops it. `watch` sees how many it found, and when it ends.
///
/// Each state that it found is one that moves lead to (`reached`). Where it went to its end, the states are closed under
/// moves but for states that others stand for (`whole`); where it didn't, and isn't said to be stopped, it found more nodes than that
/// (`part`); and it is said to be stopped only where the watch stopped it (`stopped`). The fault is one of the nodes', or that of refused memory.
pub fn search<T: Node, W: Watch>(
    alloc: Global,
    tools: &mut T::Tools,
    start: T,
    bounds: Bounds,
    watch: &mut W,
) -> Result<Found<T>, T::Fault>
    ensures reached { IfOk result (λ found. All (IsReached T.step (T.state start)) (map T.state found.nodes.items)) }
    ensures whole { IfOk result (λ found. found.whole ≡ true → IsReducedUnder T.step T.stands T.private bounds.moves (T.state start) (map T.state found.nodes.items)) }
    ensures part { IfOk result (λ found. found.whole ≡ false → found.stopped ≡ false → bounds.limit < length found.nodes.items) }
    ensures stopped { IfOk result (λ found. found.stopped ≡ true → W.stopped watch.new) }
{
    let found = search_from(alloc, tools, start, bounds, watch);
    watch.ended();
    found
}
