//! How large a run is, and where two runs part, in words.

use crate::markup::{Page, Piece};
use crate::run::Run;
use Piece::{Count, Num};
use std::alloc::Allocator;

/// How large a run is: its harts, events, processes and pipes, and the bytes of its input, with `; ` behind each.
pub fn add_size<A: Allocator>(page: &mut Page<A>, run: &Run<'_, A>) {
    let trace = run.trace;
    page.fill(
        "harts: %; events: %; processes: %; pipes: %; input: %; ",
        &[
            Num(trace.head.harts as usize),
            Num(trace.events.len()),
            Num(run.lives.len()),
            Num(run.bands.len()),
            Count(trace.head.input),
        ],
    );
}

/// Where two runs part that begin with so many same events.
pub fn add_parting<A: Allocator>(page: &mut Page<A>, count: usize) {
    page.fill(
        "Both runs begin with the same % events. They part at event %, where another process comes next.",
        &[Num(count), Num(count.saturating_add(1))],
    );
}
