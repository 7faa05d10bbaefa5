//! Lines that are longer than those of scripts: they have trees and faults, and no depth of theirs is too much for the stack.

use sh_tree::{ParseFault, copy_in, parse, same};
use std::alloc::Global;
use std::test::Fail;

// How many parentheses a faulty line has.
const DEPTH: usize = 1_000_000;

// Whether a sign so often has a tree that is the same as its copy.
fn is_copied(alloc: Global, sign: u8, count: usize) -> Result<bool, Fail> {
    let line = vec![in alloc; sign; count]?;
    let tree = parse(alloc, line.as_slice())?;
    let copy = copy_in(&tree, alloc)?;
    Ok(same(&copy, &tree))
}

#[test]
fn long_lines_have_trees_and_faults(rt: HostRuntime) -> Result<(), Fail> {
    for sign in *b";|&" {
        assert!(&rt; is_copied(rt.alloc(), sign, 1000)?);
    }
    let line = vec![in rt.alloc(); b'('; DEPTH]?;
    let fault = parse(rt.alloc(), line.as_slice()).err();
    assert!(&rt; fault == Some(ParseFault::MissingParen(DEPTH)));
    Ok(())
}
