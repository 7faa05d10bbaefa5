//! What goes from a lane of a strip to others: forks, wake-ups, and waits that take a process out.

use crate::geometry::Row;
use crate::shapes::{add_rect, add_upright};
use crate::strip::row_of;
use Piece::Num;
use figure_words::{Page, Piece};
use run_figure::Bar;
use std::alloc::Allocator;
use trace_read::{Event, Process, Trap};

// Where an edge leaves the box of a row, the middle of the other row, and whether that is below.
#[derive(Clone, Copy)]
struct Edge {
    from: usize,
    to: usize,
    goes_down: bool,
}

// The edge from a row to another.
fn edge_between(from: &Row, to: &Row) -> Edge {
    let goes_down = from.top < to.top;
    Edge {
        from: if goes_down {
            from.top.saturating_add(from.height).saturating_sub(3)
        } else {
            from.top.saturating_add(3)
        },
        to: to.middle(),
        goes_down,
    }
}

// The edge from the row of a process to that of another.
fn edge_of(rows: &[Row], from: Process, to: Process) -> Option<Edge> {
    let from = row_of(rows, from)?;
    let to = row_of(rows, to)?;
    Some(edge_between(from, to))
}

// A fork: a line to a ring on the child's lane.
fn add_fork<A: Allocator>(page: &mut Page<A>, at: usize, edge: Edge) {
    add_upright(page, "fork", at, (edge.from, edge.to));
    page.fill(
        "<circle class=\"fork\" cx=\"%\" cy=\"%\" r=\"3\"/>",
        &[Num(at), Num(edge.to)],
    );
}

// A wait that takes a zombie out: dots from a square on its lane.
fn add_reaped<A: Allocator>(page: &mut Page<A>, at: usize, edge: Edge) {
    add_upright(page, "reap", at, (edge.from, edge.to));
    let corner = (at.saturating_sub(3), edge.to.saturating_sub(3));
    add_rect(page, "reap", corner, (6, 6));
}

// An arrow's head, with its base, and its tip at a place.
fn add_tip<A: Allocator>(page: &mut Page<A>, at: usize, base: usize, tip: usize) {
    let (left, right) = (at.saturating_sub(4), at.saturating_add(4));
    page.fill(
        "<path class=\"tip\" d=\"M% %H%L% %Z\"/>",
        &[Num(left), Num(base), Num(right), Num(at), Num(tip)],
    );
}

// A wake-up: a dashed line with an arrow's head, which points up or down.
fn add_wake<A: Allocator>(page: &mut Page<A>, at: usize, edge: Edge) {
    let base = if edge.goes_down {
        edge.to.saturating_sub(7)
    } else {
        edge.to.saturating_add(7)
    };
    add_upright(page, "wake", at, (edge.from, base));
    add_tip(page, at, base, edge.to);
}

// The bars that end at an event: those of the processes that it woke.
fn add_wakes<A: Allocator>(
    page: &mut Page<A>,
    bars: &[Bar],
    rows: &[Row],
    (number, process): (usize, Process),
    at: usize,
) {
    for bar in bars {
        if bar.to == Some(number) {
            if let Some(edge) = edge_of(rows, process, bar.process) {
                add_wake(page, at, edge);
            }
        }
    }
}

// The edge of a fork, and that of a wait which takes a process out.
fn family_edges(rows: &[Row], event: &Event, trap: &Trap) -> (Option<Edge>, Option<Edge>) {
    let fork = match trap.child {
        Some(child) => edge_of(
            rows,
            event.process,
            Process {
                pid: child.pid,
                born: event.number,
            },
        ),
        None => None,
    };
    let wait = match trap.reaped {
        Some(reaped) => edge_of(rows, event.process, reaped),
        None => None,
    };
    (fork, wait)
}

/// What goes from the process of a call to others, at a place.
pub fn add_edges<A: Allocator>(
    page: &mut Page<A>,
    bars: &[Bar],
    rows: &[Row],
    (event, trap): (&Event, &Trap),
    at: usize,
) {
    let (fork, wait) = family_edges(rows, event, trap);
    if let Some(edge) = fork {
        add_fork(page, at, edge);
    }
    if let Some(edge) = wait {
        add_reaped(page, at, edge);
    }
    if trap.woken == 0 {
        return;
    }
    add_wakes(page, bars, rows, (event.number, event.process), at);
}
