//! A page and a picture for which one request for memory is refused, each in turn: that is reported, or both are whole without it, and no
//! memory is kept.

use crate::given::{OTHER, TRACE};
use figure_page::{pair_page, pair_svg};
use figure_strips::Bounds;
use linked_list_allocator::LocalHeap;
use std::alloc::{AllocError, Allocator, Global};
use std::test::Fail;
use test_heap::RefusingHeap;
use trace_read::{TraceFault, read_trace};

// Far more requests than are made.
const MOST: u64 = 20_000;

// More than is needed at one time.
const ROOM: usize = 1 << 22;

const ALL: Bounds = Bounds {
    from: None,
    to: None,
};

// Whether a text is made that is wanted; `None` where another one is.
fn is_made<A: Allocator>(made: Result<Vec<u8, A>, AllocError>, wanted: &[u8]) -> Option<bool> {
    match made {
        Ok(text) if text.as_slice() == wanted => Some(true),
        Ok(_) => None,
        Err(_) => Some(false),
    }
}

// Whether the page and then the picture are made that are wanted; `None` where others are, or something else than want of memory is
// reported.
fn is_drawn<A: Allocator + Copy>(memory: A, page: &[u8], picture: &[u8]) -> Option<bool> {
    let trace = match read_trace(memory, TRACE.as_bytes()) {
        Ok(trace) => trace,
        Err(TraceFault::Memory) => return Some(false),
        Err(_) => return None,
    };
    let other = match read_trace(memory, OTHER.as_bytes()) {
        Ok(other) => other,
        Err(TraceFault::Memory) => return Some(false),
        Err(_) => return None,
    };
    let has_page = is_made(pair_page(memory, &trace, &other, ALL), page)?;
    let has_picture = is_made(pair_svg(memory, &trace, &other, ALL), picture)?;
    Some(has_page && has_picture)
}

// Whether more requests are made than so many; the one after these is refused.
fn is_refused(alloc: Global, granted: u64, page: &[u8], picture: &[u8]) -> Result<bool, Fail> {
    let room = LocalHeap::new(alloc, ROOM)?;
    let heap = RefusingHeap::new(&room);
    heap.refuse_after(granted);
    let is_drawn = is_drawn(&heap, page, picture).ok_or(
        "another page or picture, or another fault",
    )?;
    if !is_drawn && heap.is_due() {
        return Err(Fail::from("want of memory is told where none was"));
    }
    if room.used() != 0 {
        return Err(Fail::from("memory is kept"));
    }
    Ok(!heap.is_due())
}

#[test]
fn each_request_is_refused_in_turn(rt: HostRuntime) -> Result<(), Fail> {
    let trace = read_trace(rt.alloc(), TRACE.as_bytes())?;
    let other = read_trace(rt.alloc(), OTHER.as_bytes())?;
    let page = pair_page(rt.alloc(), &trace, &other, ALL)?;
    let picture = pair_svg(rt.alloc(), &trace, &other, ALL)?;
    let mut refused: u64 = 0;
    for granted in 0..MOST {
        if !is_refused(rt.alloc(), granted, page.as_slice(), picture.as_slice())? {
            break;
        }
        refused = refused.saturating_add(1);
    }
    assert!(&rt; 50 < refused && refused < MOST, "{refused}");
    Ok(())
}
