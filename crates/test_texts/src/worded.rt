//! What a process does at a turn, in words, by what the shell and the programs of xv6 call.

use mem_files::Files;
use order_partings::{Setting, part};
use script_load::load;
use std::alloc::Global;
use std::test::Fail;

// The event at which two schedules of a pipeline part, and the words for the turn of each.
fn parted(alloc: Global, one: &[u8], other: &[u8]) -> Result<(usize, String, String), Fail> {
    let script = load(alloc, b"echo a | cat\n".as_slice())?;
    let files = Files::new(alloc);
    let setting = Setting {
        script: &script,
        stdin: &[],
        files: &files,
    };
    let parting = part(alloc, &setting, one, other)?.ok_or("they don't part")?;
    let first = String::from_str(alloc, str::from_utf8(parting.one.as_slice())?)?;
    let second = String::from_str(alloc, str::from_utf8(parting.other.as_slice())?)?;
    Ok((parting.event, first, second))
}

#[test]
fn calls_are_described_in_words(rt: HostRuntime) -> Result<(), Fail> {
    let rows = [
        (
            [1].as_slice(),
            [0].as_slice(),
            1,
            "process 1 (the shell) forks process 2 `echo a | cat`",
            "process 0 (init) waits for a child",
        ),
        (
            &[1, 2],
            &[1, 1],
            3,
            "process 2 `echo a | cat` makes a pipe",
            "process 1 (the shell) waits for a child",
        ),
        (
            &[1, 2, 2, 2],
            &[1, 2, 2, 3],
            7,
            "process 2 `echo a | cat` forks process 4 `cat`",
            "process 3 `echo a` closes the output",
        ),
        (
            &[1, 2, 2, 2, 4, 4],
            &[1, 2, 2, 2, 4, 2],
            11,
            "process 4 `cat` duplicates a descriptor of the pipe",
            "process 2 `echo a | cat` closes the pipe",
        ),
        (
            &[1, 2, 2, 2, 4, 4, 4, 4, 4],
            &[1, 2, 2, 2, 4, 4, 4, 4, 3],
            17,
            "process 4 `cat` runs cat",
            "process 3 `echo a` closes the output",
        ),
        (
            &[1, 2, 2, 2, 4, 4, 4, 4, 4, 4],
            &[1, 2, 2, 2, 4, 4, 4, 4, 4, 3],
            19,
            "process 4 `cat` finds the pipe empty and waits",
            "process 3 `echo a` closes the output",
        ),
    ];
    for (one, other, event, first, second) in rows {
        let (found, there, here) = parted(rt.alloc(), one, other)?;
        assert!(&rt; found == event);
        assert!(&rt; there.as_str() == first);
        assert!(&rt; here.as_str() == second);
    }
    Ok(())
}
