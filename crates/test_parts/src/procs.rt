//! The order in which processes are dispatched, which no contract says.
//!
//! A row is steps, of a letter and of digits that are numbers of harts, of slots and of pipes:
//!
//!     d50     hart 5 is idle and dispatches the process in slot 0; `-` in place of the slot: it finds none
//!     p50     hart 5 is given the process in slot 0, wherever that stands
//!     r1      the process in slot 1 has made a call that doesn't sleep
//!     f1      it forks; the child has the lowest free slot
//!     s13     it falls asleep on the bytes of pipe 3
//!     w3      all that sleep on these wake up

ghost use Rattle.std.specs.Prelude.{◌≡◌, true};
ghost use Rattle.proc_table.specs.Slots.{at, is_running};

use fd_table::Fds;
use proc_table::{Answer, Channel, HARTS, Pid, Procs};
use std::alloc::{AllocError, Global};
use std::test::Fail;
use test_kernel::walker::Walker;

type Table = Procs<Walker, Global>;

fn number(digit: u8) -> u8 {
    digit.wrapping_sub(b'0')
}

// Whether the hart, which is idle, dispatches the process in this slot, or none.
fn dispatches(procs: &mut Table, hart: u8, slot: u8) -> bool {
    if HARTS <= hart || !procs.is_idle(hart) {
        return false;
    }
    match procs.dispatch(hart) {
        Some(pid) => slot != b'-' && pid.index() == number(slot) as usize,
        None => slot == b'-',
    }
}

// A step of a process that runs.
fn acts(procs: &mut Table, letter: u8, pid: Pid, pipe: u64) -> bool
    requires { is_running (at procs.old pid) ≡ true }
{
    match letter {
        b'r' => procs.answer(pid, Answer::Done),
        b's' => procs.sleep(pid, Channel::PipeBytes(pipe), 0),
        _ => return letter == b'f' && procs.fork(pid, Fds::new()).is_ok(),
    }
    true
}

// Whether a step goes as it says.
fn step_holds(procs: &mut Table, step: &[u8]) -> bool {
    match step {
        [b'd', hart, slot] => dispatches(procs, number(*hart), *slot),
        [b'p', hart, slot] => procs.dispatch_pid(number(*hart), number(*slot) as usize),
        [b'w', pipe] => procs.wakeup(Channel::PipeBytes(number(*pipe) as u64)) > 0,
        [letter, slot, rest @ ..] => {
            let pipe = rest.first().copied().unwrap_or(b'0');
            match Pid::new(number(*slot) as usize) {
                Some(pid) if procs.is_running(pid) => acts(
                    procs,
                    *letter,
                    pid,
                    number(pipe) as u64,
                ),
                _ => false,
            }
        }
        _ => false,
    }
}

// Each row is of a new table. Who is dispatched when no clause says, since any Runnable process may be.
const ORDERS: &str = "\
# init stands first and the shell behind it
d50 d61 d7-
# a child stands behind all of its parent's hart, and its parent behind it: hart 3's queue holds 3 and 0, hart 4's holds 2 and 1, and
# hart 5 finds hart 3's after 6, 7, 0, 1 and 2
d30 d41 f1 f0 d53 d60 d72 d01 d1-
# who stays runnable goes to the end
d00 r0 d01 r1 d00
# a hart takes its own before the next ones: 0 waits for hart 2, and 1 for hart 6; from hart 3 on, hart 6 comes first
d20 d61 r0 r1 d31 r1 d20 d41
# sleepers wake in the order in which they fell asleep, and each stands in the queue of the hart on which it ran last
p01 f1 p01 f1 p00 p11 p22 p33 s23 s04 s33 s13 w3 d71 d33 d02 w4 d40
";

fn steps_hold(procs: &mut Table, row: &str) -> bool {
    row.split(' ')
        .all(|step| step_holds(procs, step.as_bytes()))
}

fn row_holds(alloc: Global, row: &str) -> Result<bool, AllocError> {
    let mut procs = Procs::new(alloc, Walker { left: b"Z." }, Walker { left: b"Z." })?;
    Ok(steps_hold(&mut procs, row))
}

#[test]
fn processes_are_dispatched_in_their_order(rt: HostRuntime) -> Result<(), Fail> {
    for row in ORDERS.lines() {
        if !row.starts_with('#') && !row_holds(rt.alloc(), row)? {
            return Err(Fail::from(row));
        }
    }
    Ok(())
}
