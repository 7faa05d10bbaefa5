//! That harts are threads, of which none is left, and that user code of two overlaps.

use crate::given::{TURNS, file_of};
use kernel_events::Report;
use kernel_threads::{Gate, run_harts};
use proc_table::Pid;
use script_load::load;
use std::alloc::Global;
use std::hint::spin_loop;
use std::process::Abort;
use std::rt::Files;
use std::sync::Wait;
use std::sync::atomic::{AtomicBool, AtomicU64, Ordering};
use std::test::Fail;
use std::thread::Threads;
use std::time::{Clock, Duration};
use std::{fs, io, thread};

// So often a hart looks whether another one comes.
const LOOKS: u64 = 100_000_000;

// Holds the hart on which process 3 or 4 makes its first step, whichever comes first, until a step begins on another; and counts the
// steps that begin.
#[derive(Drop)]
struct TwoInside {
    // The hart that is held, or was, and one more; 0 before.
    held: AtomicU64,
    // Another hart came.
    met: AtomicBool,
    // None came while it was looked for.
    missed: AtomicBool,
    begun: AtomicU64,
}

impl TwoInside {
    fn new() -> TwoInside {
        TwoInside {
            held: AtomicU64::new(0),
            met: AtomicBool::new(false),
            missed: AtomicBool::new(false),
            begun: AtomicU64::new(0),
        }
    }

    // Looks for another hart.
    fn look(&self) {
        for _look in 0..LOOKS {
            if self.met.load(Ordering::SeqCst) {
                return;
            }
            spin_loop();
        }
        self.missed.store(true, Ordering::SeqCst);
    }

    // Whether the hart is the one to be held, from now on.
    fn is_first(&self, own: u64, pid: Pid) -> bool {
        if pid.index() != 3 && pid.index() != 4 {
            return false;
        }
        let found = self
            .held
            .compare_exchange(0, own, Ordering::SeqCst, Ordering::SeqCst);
        found.is_ok()
    }
}

impl Gate for TwoInside {
    fn enter<R: Wait>(&self, _rt: &R, hart: u8, pid: Pid) {
        self.begun.fetch_add(1, Ordering::SeqCst);
        let own = hart as u64 + 1;
        if self.is_first(own, pid) {
            self.look();
            return;
        }
        let held = self.held.load(Ordering::SeqCst);
        if held != 0 && held != own {
            self.met.store(true, Ordering::SeqCst);
        }
    }
}

// Runs `cat big | wc` on a file whose 1,300 bytes are more than a pipe holds.
fn run<R: Threads + Wait + Clock + Sync + AllocGlobal>(
    rt: &R,
    harts: u8,
    gate: &TwoInside,
) -> Result<Report<Global>, Fail> {
    let alloc = rt.alloc();
    let script = load(alloc, b"cat big | wc")?;
    let big = "0123456789ab\n".repeat(alloc, 100)?;
    let given = file_of(alloc, "big", big.as_bytes())?;
    Ok(run_harts(rt, alloc, &script, &[], &given, harts, TURNS, gate)?)
}

// Two harts were inside at one time, as many steps began as there are dispatches, and the run wrote what it means.
fn have_met<R: Abort>(rt: &R, gate: &TwoInside, report: &Report<Global>) {
    assert!(rt; gate.met.load(Ordering::SeqCst));
    assert!(rt; !gate.missed.load(Ordering::SeqCst));
    assert_eq!(rt; report.out.as_slice(), b"100 100 1300 \n".as_slice());
    let dispatches = report.schedule.as_slice().len() as u64 / 2;
    assert_eq!(rt; gate.begun.load(Ordering::SeqCst), dispatches);
}

// How many threads this process has, as the system reports it.
fn threads_here<R: Files + Alloc>(rt: &R) -> io::Result<u64> {
    let text = fs::read_to_string(rt, "/proc/self/status")?;
    for line in text.as_str().lines() {
        if let Some(count) = line.strip_prefix("Threads:") {
            return Ok(count.trim().parse().unwrap_or(0));
        }
    }
    Ok(0)
}

// Whether there are so many threads; the system may need a moment to take others away.
fn are_threads<R: Files + Alloc + Clock>(rt: &R, count: u64) -> io::Result<bool> {
    for _look in 0..1_000 {
        if threads_here(rt)? == count {
            return Ok(true);
        }
        thread::sleep(rt, Duration::from_millis(1));
    }
    Ok(false)
}

// The threads of the harts overlap, no step begins but those that are dispatched, and none of the threads is left.
#[test]
fn harts_are_threads(rt: HostRuntime) -> Result<(), Fail> {
    let before = threads_here(&rt)?;
    assert!(&rt; 0 < before);
    for harts in [2, 8] {
        let gate = TwoInside::new();
        let report = run(&rt, harts, &gate)?;
        have_met(&rt, &gate, &report);
        assert!(&rt; are_threads(&rt, before)?);
        have_met(&rt, &gate, &report);
    }
    Ok(())
}
