//! How much the files of scripts grow at most.

use mem_files::Files;
use room_bounds::growth_of;
use script_load::load;
use std::test::Fail;

// Scripts with four bytes of input and five in the file f, and by how many bytes their files grow at most, counted by hand: `wc` counts
// with a block of 1024 bytes for each of its inputs, and what `tee` writes to a file with what it writes to its output.
const ROWS: &[(&str, Option<u64>)] = &[
    ("echo hi > g", Some(3)),
    ("cat > g", Some(4)),
    ("cat f &; cat f > g &; cat f >> h", Some(10)),
    ("cat f f | tee | wc > g; cat f | grep e > h", Some(1029)),
    ("echo abc | grep b > g; echo d >> g", Some(6)),
    ("wc < g > g", Some(1024)),
    ("cat g > g", Some(0)),
    ("nothing f > g", Some(0)),
    ("cat f >> f", None),
    ("cat f | tee g", Some(10)),
    ("echo a | tee f | cat f", Some(4)),
    ("cat f | tee f", None),
    ("echo a > g; cat g > h", None),
];

#[test]
fn files_grow_by_what_is_counted(rt: HostRuntime) -> Result<(), Fail> {
    let mut files = Files::new(rt.alloc());
    files.put(b"f", b"hello")?;
    for (text, growth) in ROWS {
        let script = load(rt.alloc(), text.as_bytes())?;
        assert!(&rt; growth_of(&script, b"four", &files) == *growth);
    }
    Ok(())
}
