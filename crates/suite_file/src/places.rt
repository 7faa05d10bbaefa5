//! Where keys stand in the text of a suite, whose parser doesn't say.

// Whether a string over several lines is open.
#[derive(Clone, Copy, PartialEq, Eq)]
enum Open {
    No,
    Basic,
    Literal,
}

// What follows the string that begins here with this quote and ends on its line.
fn after_string(line: &[u8], quote: u8) -> &[u8] {
    let mut rest = line;
    for _ in 0..line.len() {
        match rest {
            [b'\\', _, tail @ ..] if quote == b'"' => rest = tail,
            [byte, tail @ ..] if *byte == quote => return tail,
            [_, tail @ ..] => rest = tail,
            [] => return rest,
        }
    }
    rest
}

// One step along a line: what follows, and what is open then.
fn step(rest: &[u8], open: Open) -> (&[u8], Open) {
    match (open, rest) {
        (Open::Basic, [b'\\', _, tail @ ..]) => (tail, open),
        (Open::Basic, [b'"', b'"', b'"', tail @ ..]) => (tail, Open::No),
        (Open::Literal, [b'\'', b'\'', b'\'', tail @ ..]) => (tail, Open::No),
        (Open::No, [b'"', b'"', b'"', tail @ ..]) => (tail, Open::Basic),
        (Open::No, [b'\'', b'\'', b'\'', tail @ ..]) => (tail, Open::Literal),
        (Open::No, [b'"', tail @ ..]) => (after_string(tail, b'"'), open),
        (Open::No, [b'\'', tail @ ..]) => (after_string(tail, b'\''), open),
        (Open::No, [b'#', ..]) => (&[], open),
        (_, [_, tail @ ..]) => (tail, open),
        (_, []) => (&[], open),
    }
}

// What is open after the line.
fn after_line(line: &[u8], open: Open) -> Open {
    let mut rest = line;
    let mut now = open;
    for _ in 0..line.len() {
        (rest, now) = step(rest, now);
    }
    now
}

fn is_space(byte: u8) -> bool {
    byte == b' ' || byte == b'\t' || byte == b'\r'
}

// The bytes without white space round them.
fn trimmed(bytes: &[u8]) -> &[u8] {
    let mut rest = bytes;
    for _ in 0..bytes.len() {
        match rest {
            [first, tail @ ..] if is_space(*first) => rest = tail,
            [head @ .., last] if is_space(*last) => rest = head,
            _ => return rest,
        }
    }
    rest
}

// The bytes before this one; all where there is none.
fn before(bytes: &[u8], end: u8) -> &[u8] {
    match bytes.iter().position(|byte| *byte == end) {
        Some(at) => &bytes[..at],
        None => bytes,
    }
}

// The name between the brackets of a table's line.
fn header_of(line: &[u8]) -> Option<&[u8]> {
    match line {
        [b'[', b'[', name @ ..] => Some(trimmed(before(name, b']'))),
        [b'[', name @ ..] => Some(trimmed(before(name, b']'))),
        _ => None,
    }
}

// The bytes without the quotes round them.
fn unquoted(bytes: &[u8]) -> &[u8] {
    match bytes {
        [b'"', name @ .., b'"'] => name,
        [b'\'', name @ .., b'\''] => name,
        _ => bytes,
    }
}

// Whether the line gives this key a value, or one below it.
fn gives(line: &[u8], key: &str) -> bool {
    let all = trimmed(before(line, b'='));
    unquoted(all) == key.as_bytes() || trimmed(before(all, b'.')) == key.as_bytes()
}

/// A place in a suite: the test of this number, counted from 1, or what stands before the tests; there the table of this name,
/// or what stands before its tables; and a key, or the beginning.
#[derive(Clone, Copy)]
pub struct Key<'k> {
    pub test: usize,
    pub table: &'k str,
    pub key: &'k str,
}

// How far a search for a key is.
#[derive(Drop)]
struct Search {
    open: Open,
    test: usize,
    is_in_table: bool,
    // The line at which the test begins, and that of the table.
    test_line: usize,
    table_line: usize,
}

impl Search {
    // A line that opens a table.
    fn enter(&mut self, name: &[u8], number: usize, key: &Key<'_>) {
        if name == b"test".as_slice() {
            self.test = self.test.saturating_add(1);
            self.is_in_table = key.table.is_empty();
            if self.test == key.test {
                self.test_line = number;
            }
            return;
        }
        self.is_in_table = match name {
            [b't', b'e', b's', b't', b'.', table @ ..] => table == key.table.as_bytes(),
            _ => false,
        };
        if self.is_in_table && self.test == key.test {
            self.table_line = number;
        }
    }

    // Whether the key stands on this line.
    fn stands(&mut self, line: &[u8], number: usize, key: &Key<'_>) -> bool {
        let was = self.open;
        self.open = after_line(line, was);
        if was != Open::No {
            return false;
        }
        let line = trimmed(line);
        if let Some(name) = header_of(line) {
            self.enter(name, number, key);
            return key.key.is_empty() && self.test == key.test && self.is_in_table;
        }
        self.is_in_table && self.test == key.test && !key.key.is_empty() && gives(line, key.key)
    }
}

/// The line of the text, counted from 1, at which the key stands (own): the first that begins with it in the part of its test
/// and table; where none does, as where a table stands on one line, that of its table, or of its test, or the first.
pub fn line_of(text: &[u8], key: &Key<'_>) -> usize {
    let mut search = Search {
        open: Open::No,
        test: 0,
        is_in_table: key.table.is_empty(),
        test_line: 1,
        table_line: 0,
    };
    for (i, line) in text.split(|byte| *byte == b'\n').enumerate() {
        let number = i.saturating_add(1);
        if search.stands(line, number, key) {
            return number;
        }
    }
    if search.table_line == 0 {
        search.test_line
    } else {
        search.table_line
    }
}
