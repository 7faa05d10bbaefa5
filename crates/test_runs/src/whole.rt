//! A run in as many turns as are enough for it.

use hart_run::run_whole;
use mem_files::Files;
use script_load::load;
use std::test::Fail;

// A run takes as many turns as it has events, far fewer than are enough.
#[test]
fn a_script_runs_to_its_end(rt: HostRuntime) -> Result<(), Fail> {
    let alloc = rt.alloc();
    let script = load(alloc, b"echo a | cat".as_slice())?;
    let files = Files::new(alloc);
    let report = run_whole(alloc, &script, &[], &files)?;
    assert!(rt; report.finished);
    assert_eq!(rt; report.out.as_slice(), b"a\n".as_slice());
    assert!(rt; report.schedule.as_slice().len() < 200);
    Ok(())
}
