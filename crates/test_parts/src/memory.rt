//! Calls of which one request for memory is refused, each in turn: it is reported where one is, and nowhere else, and no memory is kept.

use kernel_calls::Pipes;
use linked_list_allocator::LocalHeap;
use mem_files::{Files, FilesFault};
use script_load::{LoadFault, Profile, load_with};
use sh_tree::{ParseFault, copy_in, parse, same};
use std::alloc::{AllocError, Allocator, Global};
use std::test::Fail;
use test_heap::RefusingHeap;

// Far more requests than any of the calls makes.
const MOST: u64 = 1000;

// More than any of the calls needs at one time.
const ROOM: usize = 1 << 16;

const EACH_NODE: &[u8] = b"(a b ; c) < f | (d &) >> g ; e > h i";

// What a call came to: all that it has to do, or that memory was refused; nothing where it came to something else.
type Came = Option<bool>;

fn done(is_right: bool) -> Came {
    is_right.then_some(true)
}

// A line's tree, and the copy of that, in the same memory.
fn trees_came<A: Allocator + Copy>(memory: A) -> Came {
    match parse(memory, EACH_NODE) {
        Ok(tree) => match copy_in(&tree, memory) {
            Ok(copy) => done(same(&copy, &tree)),
            Err(_) => Some(false),
        },
        Err(ParseFault::Memory) => Some(false),
        Err(_) => None,
    }
}

fn script_came<A: Allocator + Copy>(memory: A) -> Came {
    let text = b"echo a; echo b\ncd x\necho 1 2 3 4 5 6 7 8 9\n";
    match load_with(memory, text, Profile::Append) {
        Ok(script) => done(script.lines.as_slice().len() == 3),
        Err(LoadFault::Memory) => Some(false),
        Err(_) => None,
    }
}

// A set of files whose list has no room to spare: it had room for 4, and has 4.
fn four_files<A: Allocator + Copy>(memory: A) -> Result<Files<A>, FilesFault> {
    let mut files = Files::new(memory);
    for name in [b'a', b'b', b'c', b'p'] {
        files.put(&[name], b"b\naab\naabc\ncb\n")?;
    }
    Ok(files)
}

// Whether the files have memory for one more call.
fn are_changed<A: Allocator + Copy>(files: &mut Files<A>, call: &str) -> Result<bool, FilesFault> {
    let bytes = [b'x'; 200];
    match call {
        "put" => files.put(b"q", &bytes)?,
        "put over" => files.put(b"p", &bytes)?,
        "create" => files.create(b"q")?,
        "write" => files.write_at(b"p", 14, &bytes)?,
        "append" => return Ok(files.append(b"p", &bytes)? == 214),
        _ => {}
    }
    Ok(true)
}

// One more call on four files.
fn change<A: Allocator + Copy>(memory: A, call: &str) -> Result<bool, FilesFault> {
    let mut files = four_files(memory)?;
    if call == "copy" {
        return Ok(files.copy(memory)?.same(&files));
    }
    are_changed(&mut files, call)
}

fn change_came<A: Allocator + Copy>(memory: A, call: &str) -> Came {
    match change(memory, call) {
        Ok(is_right) => done(is_right),
        Err(FilesFault::Memory) => Some(false),
        Err(_) => None,
    }
}

// Five pipes, of which the last is there.
fn pipes_came<A: Allocator + Copy>(memory: A) -> Came {
    let mut pipes = Pipes::new(memory);
    for name in 1..6 {
        if pipes.add(name).is_err() {
            return Some(false);
        }
    }
    done(pipes.status(5).is_some())
}

fn call_came<A: Allocator + Copy>(memory: A, call: &str) -> Came {
    match call {
        "trees" => trees_came(memory),
        "script" => script_came(memory),
        "pipes" => pipes_came(memory),
        _ => change_came(memory, call),
    }
}

// Whether the call is refused memory, where the request after so many is; nothing where it isn't reported so exactly then, or memory is kept.
fn is_refused_after(alloc: Global, granted: u64, call: &str) -> Result<Option<bool>, AllocError> {
    let room = LocalHeap::new(alloc, ROOM)?;
    let heap = RefusingHeap::new(&room);
    heap.refuse_after(granted);
    let came = call_came(&heap, call);
    let is_due = heap.is_due();
    let is_right = came == Some(is_due) && room.used() == 0;
    Ok(is_right.then_some(!is_due))
}

// How many requests the call makes, each of which is refused in turn.
fn refusals(alloc: Global, call: &str) -> Result<u64, Fail> {
    for granted in 0..MOST {
        match is_refused_after(alloc, granted, call)? {
            Some(true) => {}
            Some(false) => return Ok(granted),
            None => return Err(Fail::from("a refused request isn't told, or memory is kept")),
        }
    }
    Ok(MOST)
}

// A call, and how many requests it makes at least: a node for each word, redirection, pipe, list and `&` of a line, twice; a line
// each; and a pipe each.
const CALLS: &str = "trees 16
script 3
pipes 5
";

// Fails where the call makes fewer requests, or too many.
fn are_refused(alloc: Global, call: &'static str, least: u64) -> Result<(), Fail> {
    let refused = refusals(alloc, call)?;
    if least <= refused && refused < MOST {
        Ok(())
    } else {
        Err(Fail::from(call))
    }
}

#[test]
fn refused_memory_is_reported(rt: HostRuntime) -> Result<(), Fail> {
    for row in CALLS.lines() {
        let (call, least) = row.rsplit_once(' ').unwrap_or((row, ""));
        are_refused(rt.alloc(), call, least.parse::<u64>()?)?;
    }
    let files = refusals(rt.alloc(), "files")?;
    for call in "copy,put,put over,create,write,append".split(',') {
        are_refused(rt.alloc(), call, files.saturating_add(1))?;
    }
    Ok(())
}
