//! Runs of a kernel of which one request for memory is refused, each in turn: a boot, a dispatch or a call reports it, and the run goes on to
//! its end. What a refusal changes, clauses say.

use crate::walker::Walker;
use kernel_events::{Full, Kernel, Task};
use mem_files::{Files, FilesFault};
use std::alloc::{AllocError, Allocator, Global};
use std::test::Fail;
use test_heap::RefusingHeap;
use user_calls::Ran;

// Far more requests than any of the runs makes.
const MOST: u64 = 100;

// The shell writes x and 700 times y to its output and x to its diagnostics, and a byte through a pipe.
const CALLS: &[u8] = b"w1W1w2p.w4r3o.x.";

// What reported that a request was refused.
#[derive(Clone, Copy, PartialEq, Eq)]
enum Reported {
    Boot,
    Dispatch,
    Call,
    Nothing,
}

fn files_of<A: Allocator + Copy>(alloc: A) -> Result<Files<A>, FilesFault> {
    let mut files = Files::new(alloc);
    files.put(b"p", b"aab")?;
    Ok(files)
}

// Init waits for ever; the shell makes its calls; there is a file p.
fn boot<A: Allocator + Copy>(alloc: A) -> Result<Kernel<Walker, A>, AllocError> {
    let Ok(files) = files_of(alloc) else {
        return Err(AllocError);
    };
    let init = Walker { left: b"Z." };
    Kernel::boot(alloc, init, Walker { left: CALLS }, b"", &files)
}

// Some process begins on hart 0: every other time as the queues say, and else the shell if it can.
fn begins<A: Allocator>(
    kernel: &mut Kernel<Walker, A>,
) -> Result<Option<Task<Walker>>, AllocError> {
    if kernel.schedule().len() % 4 == 0 && kernel.is_idle(0) {
        return kernel.dispatch(0);
    }
    match kernel.dispatch_pid(0, 1)? {
        Some(task) => Ok(Some(task)),
        None => kernel.dispatch_pid(0, 0),
    }
}

// A process begins, and makes its call; whether it began at the first try, and not at the second.
fn steps<A: Allocator + Copy>(kernel: &mut Kernel<Walker, A>) -> Result<bool, Fail> {
    let first = begins(kernel);
    let is_first = first.is_ok();
    let found = match first {
        Ok(found) => found,
        Err(_) => begins(kernel)?,
    };
    let task = found.ok_or("nothing is Runnable")?;
    let ran = Ran::make(task.machine, task.reply);
    match kernel.trap(0, task.pid, ran) {
        Ok(()) => Ok(is_first),
        Err(_) => Err(Fail::from("a stranger")),
    }
}

// Runs the kernel to its end, and returns what reported that a request was refused.
fn finish<A: Allocator + Copy>(kernel: &mut Kernel<Walker, A>) -> Result<Reported, Fail> {
    let mut reported = Reported::Nothing;
    for _call in 0..MOST {
        if !kernel.is_finished() && !steps(kernel)? {
            reported = Reported::Dispatch;
        }
    }
    match kernel.full() {
        _ if !kernel.is_finished() => Err(Fail::from("it isn't finished")),
        Some(Full::Memory) => Ok(Reported::Call),
        _ => Ok(reported),
    }
}

// A run where the request after so many is refused: what reports it. It is reported exactly where one is refused.
fn reported_after(alloc: Global, granted: u64) -> Result<Reported, Fail> {
    let heap = RefusingHeap::new(alloc);
    heap.refuse_after(granted);
    let reported = match boot(&heap) {
        Ok(mut kernel) => finish(&mut kernel)?,
        Err(_) => Reported::Boot,
    };
    if heap.is_due() == (reported == Reported::Nothing) {
        Ok(reported)
    } else {
        Err(Fail::from("a refused request isn't told"))
    }
}

// How many of these refusals are reported so.
fn count_of(reported: &[Reported], one: Reported) -> usize {
    reported.iter().filter(|it| **it == one).count()
}

#[test]
fn each_request_of_a_run_is_refused(rt: HostRuntime) -> Result<(), Fail> {
    let mut reported = Vec::new(rt.alloc());
    for granted in 0..MOST {
        reported.push(reported_after(rt.alloc(), granted)?)?;
    }
    let reported = reported.as_slice();
    assert!(&rt; reported.last() == Some(&Reported::Nothing));
    assert!(&rt; 0 < count_of(reported, Reported::Boot));
    assert!(&rt; 2 <= count_of(reported, Reported::Dispatch));
    assert!(&rt; 5 <= count_of(reported, Reported::Call));
    Ok(())
}
