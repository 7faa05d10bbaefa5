//! The faults of files in memory.

use mem_files::FilesFault;
use std::alloc::{AllocError, Global};
use std::test::Fail;

const FAULTS: &str = "1 bad file name
2 no such file
3 too many files
4 file too large
5 no memory
6 write past the end of the file
";

// The faults in the order of their numbers, each with its text.
fn faults(alloc: Global) -> Result<String, AllocError> {
    let mut text = String::new(alloc);
    for fault in [
        FilesFault::BadName,
        FilesFault::Missing,
        FilesFault::FullFiles,
        FilesFault::FullSize,
        FilesFault::Memory,
        FilesFault::Gap,
    ] {
        let number = fault as usize;
        writeln!(text, "{number} {fault}")?;
    }
    Ok(text)
}

#[test]
fn faults_have_numbers_and_texts(rt: HostRuntime) -> Result<(), Fail> {
    let text = faults(rt.alloc())?;
    assert!(rt; text.as_str() == FAULTS);
    Ok(())
}
