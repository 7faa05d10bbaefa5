//! The page.

use crate::book::{Book, add_comma, add_item};
use crate::fault::PageFault;
use crate::parts::{HEAD, TAIL};
use crate::walk::{Node, Walk};
use kernel_events::{Full, Kernel};
use mem_files::Files;
use play_states::{Outcome, Play, Shown};
use result_json::full_word;
use std::alloc::{AllocError, Allocator, Global};
use step_answers::Text;
use user_calls::Machine;

/// What a page shows besides the states.
#[derive(Clone, Copy)]
pub struct Words<'a> {
    /// The program with its version, as `xvsh 1.9.0`.
    pub program: &'a str,
    /// The script's text.
    pub script: &'a [u8],
    /// The words behind `xvsh step --schedule turns`, as they are written for a shell; nothing where no command says it.
    pub command: &'a [u8],
}

// A byte of a string of JSON, with an escape for a quote, a backslash and `<`.
fn add_byte(text: &mut Text, byte: u8) {
    match byte {
        b'"' => text.add("\\\""),
        b'\\' => text.add("\\\\"),
        b'<' => text.add("\\u003c"),
        other => text.bytes(&[other]),
    }
}

// What is printable ASCII as a string of JSON.
fn add_string(text: &mut Text, bytes: &[u8]) {
    text.add("\"");
    for byte in bytes {
        add_byte(text, *byte);
    }
    text.add("\"");
}

// Bytes as they are shown, as a string.
fn add_shown(alloc: Global, text: &mut Text, bytes: &[u8]) -> Result<(), AllocError> {
    let mut shown = Text::new(alloc);
    shown.shown(bytes);
    let shown = shown.end()?;
    add_string(text, &shown);
    Ok(())
}

// A list of rows under its key, behind what is there.
fn add_rows(text: &mut Text, key: &str, rows: &[Vec<u8>]) {
    text.add(",\n\"");
    text.add(key);
    text.add("\":[");
    for (place, row) in rows.iter().enumerate() {
        add_line(text, place);
        text.bytes(row);
    }
    text.add("]");
}

// A new line for what stands at this place of a list, where it isn't the first.
fn add_line(text: &mut Text, place: usize) {
    if place > 0 {
        text.add(",\n");
    }
}

// The texts, behind what is there.
fn add_texts(text: &mut Text, rows: &[Vec<u8>]) {
    text.add(",\n\"B\":[");
    for (place, row) in rows.iter().enumerate() {
        add_line(text, place);
        add_string(text, row);
    }
    text.add("]");
}

// The lines of the script.
fn add_script(alloc: Global, text: &mut Text, script: &[u8]) -> Result<(), AllocError> {
    let lines = script.strip_suffix(b"\n".as_slice()).unwrap_or(script);
    let mut count: usize = 0;
    text.add("\"script\":[");
    for line in lines.split(|byte| *byte == b'\n') {
        add_comma(text, count);
        add_shown(alloc, text, line)?;
        count = count.saturating_add(1);
    }
    text.add("],\n");
    Ok(())
}

// The files: the name and the bytes of each, behind what is there.
fn add_files<A: Allocator>(row: &mut Text, book: &mut Book, files: &Files<A>) {
    for at in 0..files.count() {
        if let Some(name) = files.name_at(at) {
            let bytes = book.shown(files.get(name).unwrap_or(&[]));
            add_item(row, book.name(name));
            add_item(row, bytes);
        }
    }
}

// What was full, if something was.
fn add_full(row: &mut Text, book: &mut Book, full: Option<Full>) {
    let full = match full {
        Some(full) => book.word(full_word(full)),
        None => 0,
    };
    add_item(row, full);
}

// An outcome: what it left, and that all finished.
fn outcome_of(book: &mut Book, outcome: &Outcome) -> Result<Vec<u8>, AllocError> {
    let mut row = Text::new(book.alloc);
    row.add("[0");
    add_item(&mut row, book.shown(&outcome.out));
    add_item(&mut row, book.shown(&outcome.diag));
    add_full(&mut row, book, outcome.full);
    add_files(&mut row, book, &outcome.files);
    row.add("]");
    row.end()
}

// Adds a place to ranges, each of which is its first place and its last one; the place is behind all that are there.
fn add_place(ranges: &mut Vec<(usize, usize)>, place: usize) -> Result<(), AllocError> {
    match ranges.pop() {
        Some((first, last)) if last.saturating_add(1) == place => ranges.push((first, place))?,
        Some(range) => {
            ranges.push(range)?;
            ranges.push((place, place))?;
        }
        None => ranges.push((place, place))?,
    }
    Ok(())
}

// The outcomes that can still come, as ranges; where all can come to sleep, that stands behind the outcomes.
fn ranges_of(
    alloc: Global,
    shown: &Shown,
    outcomes: usize,
) -> Result<Vec<(usize, usize)>, AllocError> {
    let mut ranges = Vec::new(alloc);
    for place in &shown.possible {
        add_place(&mut ranges, *place)?;
    }
    if shown.sleeps {
        add_place(&mut ranges, outcomes)?;
    }
    Ok(ranges)
}

// Ranges, each as its first place and its last one.
fn add_ranges(row: &mut Text, ranges: &[(usize, usize)]) {
    for (place, (first, last)) in ranges.iter().enumerate() {
        add_comma(row, place);
        row.number(*first as u64);
        add_item(row, *last);
    }
}

// The row of the outcomes that can still come.
fn set_of(book: &mut Book, shown: &Shown, outcomes: usize) -> Result<usize, AllocError> {
    let ranges = ranges_of(book.alloc, shown, outcomes)?;
    let mut row = Text::new(book.alloc);
    row.add("[");
    add_ranges(&mut row, &ranges);
    row.add("]");
    Ok(book.sets.put_text(row))
}

// Where all sleep: what is there then, as an outcome that sleeps for ever.
fn sleep_of<M: Machine>(
    book: &mut Book,
    kernel: &Kernel<M, Global>,
) -> Result<Vec<u8>, AllocError> {
    let mut row = Text::new(book.alloc);
    row.add("[1");
    add_item(&mut row, book.shown(kernel.out()));
    add_item(&mut row, book.shown(kernel.diag()));
    add_full(&mut row, book, kernel.full());
    add_files(&mut row, book, kernel.files());
    row.add("]");
    row.end()
}

// Where these turns lead, at which all sleep.
fn sleep_after<M: Machine, C: Allocator>(
    walk: &mut Walk<'_, '_, M, C>,
    pids: &[u8],
) -> Result<Vec<u8>, PageFault> {
    let follow = walk.replay(pids)?;
    let row = sleep_of(&mut walk.book, follow.kernel())?;
    Ok(row)
}

// The rows of the outcomes.
fn finished_of(book: &mut Book, outcomes: &[Outcome]) -> Result<Vec<Vec<u8>>, AllocError> {
    let mut rows = Vec::new(book.alloc);
    for outcome in outcomes {
        rows.push(outcome_of(book, outcome)?)?;
    }
    Ok(rows)
}

// The rows of the outcomes, and of where all sleep, if turns lead there.
fn outcomes_of<M: Machine, C: Allocator>(
    walk: &mut Walk<'_, '_, M, C>,
    outcomes: &[Outcome],
    stuck: Option<&[u8]>,
) -> Result<Vec<Vec<u8>>, PageFault> {
    let mut rows = finished_of(&mut walk.book, outcomes)?;
    if let Some(pids) = stuck {
        rows.push(sleep_after(walk, pids)?)?;
    }
    Ok(rows)
}

// Who goes on without a choice, or that there is a choice, or that the turns aren't there.
fn add_only(row: &mut Text, node: &Node) {
    match node.only {
        _ if node.is_cut => row.add("[-2"),
        Some(only) => {
            row.add("[");
            row.number(only as u64);
        }
        None => row.add("[-1"),
    }
}

// A state of which this is the row of what can still come out: what is shown of it, and its turns.
fn add_node(row: &mut Text, node: &Node, set: usize) {
    add_only(row, node);
    add_item(row, set);
    row.add(",");
    row.bytes(&node.shown);
    for edge in &node.edges {
        add_item(row, usize::from(edge.pid));
        add_item(row, edge.deed);
        add_item(row, edge.next);
    }
    row.add("]");
}

// The row of a state of which this is the row of what can still come out.
fn row_of(alloc: Global, node: &Node, set: usize) -> Result<Vec<u8>, AllocError> {
    let mut row = Text::new(alloc);
    add_node(&mut row, node, set);
    row.end()
}

// The row of the state of that place.
fn state_of<M: Machine, C: Allocator>(
    walk: &mut Walk<'_, '_, M, C>,
    play: &Play,
    place: usize,
) -> Result<Vec<u8>, PageFault> {
    let Some(shown) = play.shown.get(place) else {
        return Err(PageFault::Astray);
    };
    let set = set_of(&mut walk.book, shown, play.outcomes.len())?;
    let Some(node) = walk.nodes.get(place) else {
        return Err(PageFault::Astray);
    };
    let row = row_of(walk.book.alloc, node, set)?;
    Ok(row)
}

// The rows of the states.
fn states_of<M: Machine, C: Allocator>(
    walk: &mut Walk<'_, '_, M, C>,
    play: &Play,
) -> Result<Vec<Vec<u8>>, PageFault> {
    let mut rows = Vec::new(walk.book.alloc);
    for place in 0..walk.nodes.len() {
        rows.push(state_of(walk, play, place)?)?;
    }
    Ok(rows)
}

// The files at the beginning.
fn add_first_files(
    text: &mut Text,
    book: &mut Book,
    files: &Files<Global>,
) -> Result<(), AllocError> {
    let mut row = Text::new(book.alloc);
    add_files(&mut row, book, files);
    let row = row.end()?;
    text.bytes(row.get(1..).unwrap_or(&[]));
    Ok(())
}

// The standard input at the beginning.
fn add_input(text: &mut Text, book: &mut Book, stdin: &[u8]) {
    if stdin.is_empty() {
        text.add("-1");
    } else {
        text.number(book.shown(stdin) as u64);
    }
}

// The fields that are the same for all states.
fn add_head(
    text: &mut Text,
    book: &mut Book,
    beginning: &Beginning<'_>,
    is_whole: bool,
) -> Result<(), AllocError> {
    let alloc = book.alloc;
    text.add("{\"format\":\"xvsh-play\",\"version\":1,\n\"program\":");
    add_shown(alloc, text, beginning.words.program.as_bytes())?;
    text.add(",\n");
    add_script(alloc, text, beginning.words.script)?;
    text.add("\"files\":[");
    add_first_files(text, book, beginning.files)?;
    text.add("],\n\"input\":");
    add_input(text, book, beginning.stdin);
    text.add(",\n\"command\":");
    add_shown(alloc, text, beginning.words.command)?;
    text.add(",\n\"whole\":");
    text.number(u64::from(is_whole));
    text.add(",\n\"states\":");
    text.number(beginning.states as u64);
    text.add(",\n\"lesson\":null");
    Ok(())
}

// What a page begins with.
#[derive(Clone, Copy)]
pub struct Beginning<'a> {
    pub words: &'a Words<'a>,
    pub stdin: &'a [u8],
    pub files: &'a Files<Global>,
    // How many states the search found.
    pub states: usize,
    // The turns to where all sleep, if they can.
    pub stuck: Option<&'a [u8]>,
}

// What stands before the data.
fn add_front(text: &mut Text) {
    text.add(HEAD);
}

// What stands behind the data.
fn add_back(text: &mut Text) {
    text.add(TAIL);
}

// The rows of the book, and between them those of the outcomes.
fn add_book(text: &mut Text, book: &Book, outcomes: &[Vec<u8>]) {
    add_texts(text, book.texts.rows());
    add_rows(text, "N", book.things.rows());
    add_rows(text, "O", outcomes);
    add_rows(text, "Q", book.sets.rows());
    add_rows(text, "P", book.processes.rows());
    add_rows(text, "W", book.worlds.rows());
    add_rows(text, "T", book.deeds.rows());
}

// The page with these rows of outcomes and of states.
fn written<M: Machine, C: Allocator>(
    walk: &mut Walk<'_, '_, M, C>,
    beginning: &Beginning<'_>,
    outcomes: &[Vec<u8>],
    states: &[Vec<u8>],
) -> Result<Vec<u8>, AllocError> {
    let is_whole = walk.is_whole();
    let mut text = Text::new(walk.book.alloc);
    add_front(&mut text);
    add_head(&mut text, &mut walk.book, beginning, is_whole)?;
    walk.book.check()?;
    add_book(&mut text, &walk.book, outcomes);
    add_rows(&mut text, "S", states);
    text.add("}\n");
    add_back(&mut text);
    text.end()
}

// The page of what is shown of the states of this walk.
pub fn page_of<M: Machine, C: Allocator>(
    walk: &mut Walk<'_, '_, M, C>,
    play: &Play,
    beginning: &Beginning<'_>,
) -> Result<Vec<u8>, PageFault> {
    let outcomes = outcomes_of(walk, &play.outcomes, beginning.stuck)?;
    let states = states_of(walk, play)?;
    let page = written(walk, beginning, &outcomes, &states)?;
    Ok(page)
}
