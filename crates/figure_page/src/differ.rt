//! What two runs leave that differs, side by side, with the bytes marked from where they part on.

use Piece::{Count, Lines, Mark, Num, Short, Text};
use figure_words::{Page, Piece};
use run_figure::common_bytes;
use std::alloc::Allocator;
use trace_read::{FileState, Part, Trace};

// How many same bytes are shown before those that differ, how many of these, and how many files.
const BEFORE: usize = 160;

const MARKED: usize = 600;

const FILES: usize = 12;

// How many columns a file's name takes.
const NAME_ROOM: usize = 24;

// The place at or before this one at which a character in UTF-8 can begin.
fn character_at(bytes: &[u8], place: usize) -> usize {
    let mut at = place;
    for _byte in 0..3 {
        match bytes.get(at) {
            Some(byte) if *byte / 64 == 2 => at = at.saturating_sub(1),
            _ => break,
        }
    }
    at
}

// The bytes that are the same in both, or their end.
fn add_same<A: Allocator>(page: &mut Page<A>, same: &[u8]) {
    let first = character_at(same, same.len().saturating_sub(BEFORE));
    if first > 0 {
        page.add(&[
            Mark("<span class=\"note\">"),
            Count(first),
            Mark(" the same, and then</span>\n"),
        ]);
    }
    page.add(&[Lines(same.get(first..).unwrap_or(&[]))]);
}

// The place behind the first line of bytes.
fn line_past(bytes: &[u8]) -> usize {
    match bytes.iter().position(|byte| *byte == b'\n') {
        Some(place) => place.saturating_add(1),
        None => bytes.len(),
    }
}

// Lines, of which the ends are seen too.
fn add_lines<A: Allocator>(page: &mut Page<A>, bytes: &[u8]) {
    let mut rest = bytes;
    for _line in 0..bytes.len() {
        let past = line_past(rest);
        page.add(&[Text(rest.get(..past).unwrap_or(rest))]);
        rest = rest.get(past..).unwrap_or(&[]);
        if rest.is_empty() {
            break;
        }
        page.mark("\n");
    }
}

// Bytes that differ.
fn add_other<A: Allocator>(page: &mut Page<A>, other: &[u8]) {
    let shown = other.get(..MARKED).unwrap_or(other);
    page.mark("<mark>");
    add_lines(page, shown);
    page.mark("</mark>");
    if shown.len() < other.len() {
        page.add(&[
            Mark("\n<span class=\"note\">and "),
            Count(other.len().saturating_sub(shown.len())),
            Mark(" more</span>"),
        ]);
    }
}

// Bytes of which so many are the same in both runs.
fn add_bytes<A: Allocator>(page: &mut Page<A>, bytes: &[u8], same: usize) {
    let other = bytes.get(same..).unwrap_or(&[]);
    if bytes.is_empty() {
        page.mark("<mark class=\"ends\">nothing</mark>");
        return;
    }
    page.mark("<pre>");
    add_same(page, bytes.get(..same).unwrap_or(bytes));
    if other.is_empty() {
        page.mark("<mark class=\"ends\">no more</mark>");
    } else {
        add_other(page, other);
    }
    page.mark("</pre>");
}

// With how many same bytes both begin, and no half of a character.
fn same_of(one: &[u8], other: &[u8]) -> usize {
    let same = common_bytes(one, other);
    character_at(one, same).min(character_at(other, same))
}

// What both runs wrote to one place, if that differs.
fn add_written<A: Allocator>(page: &mut Page<A>, name: &'static str, one: &[u8], other: &[u8]) {
    if one == other {
        return;
    }
    let same = same_of(one, other);
    page.add(&[
        Mark("<tr><th scope=\"row\">"),
        Mark(name),
        Mark("</th><td>"),
    ]);
    add_bytes(page, one, same);
    page.mark("</td><td>");
    add_bytes(page, other, same);
    page.mark("</td></tr>\n");
}

// The files that a run left.
fn files_left<A: Allocator>(trace: &Trace<A>) -> &[FileState] {
    let Part { first, past } = trace.end.files;
    trace.files.as_slice().get(first..past).unwrap_or(&[])
}

// The file of this name that a run left.
fn file_named<'t, A: Allocator>(trace: &'t Trace<A>, name: &[u8]) -> Option<&'t FileState> {
    files_left(trace)
        .iter()
        .find(|file| trace.text(file.name) == name)
}

// The first bytes of a file, and how long it is; none of no file.
fn held_of<'t, A: Allocator>(trace: &'t Trace<A>, file: Option<&FileState>) -> (&'t [u8], usize) {
    match file {
        Some(file) => (trace.text(file.head), file.length),
        None => (&[], 0),
    }
}

// What a file holds, of which so many bytes are the same in both runs.
fn add_held<A: Allocator>(
    page: &mut Page<A>,
    is_there: bool,
    (head, length): (&[u8], usize),
    same: usize,
) {
    if !is_there {
        page.mark("<td><mark class=\"ends\">no such file</mark></td>");
        return;
    }
    page.add(&[Mark("<td>"), Count(length)]);
    add_bytes(page, head, same);
    page.mark(if head.len() < length {
        "<span class=\"note\">and so on</span></td>"
    } else {
        "</td>"
    });
}

// The row of a file that differs.
fn add_file<A: Allocator>(page: &mut Page<A>, one: &Trace<A>, other: &Trace<A>, name: &[u8]) {
    let (mine, theirs) = (file_named(one, name), file_named(other, name));
    let (held, other_held) = (held_of(one, mine), held_of(other, theirs));
    let same = same_of(held.0, other_held.0);
    page.add(&[
        Mark("<tr><th scope=\"row\">file <code>"),
        Short(name, NAME_ROOM),
        Mark("</code></th>"),
    ]);
    add_held(page, mine.is_some(), held, same);
    add_held(page, theirs.is_some(), other_held, same);
    page.mark("</tr>\n");
}

// Whether a file of this name differs, as far as the traces show.
fn is_other_file<A: Allocator>(one: &Trace<A>, other: &Trace<A>, name: &[u8]) -> bool {
    match (file_named(one, name), file_named(other, name)) {
        (Some(mine), Some(theirs)) => {
            mine.length != theirs.length || one.text(mine.head) != other.text(theirs.head)
        }
        (None, None) => false,
        _ => true,
    }
}

// Whether a file is one of those whose rows begin: it differs, and isn't in the other list too.
fn has_row<A: Allocator>(
    one: &Trace<A>,
    other: &Trace<A>,
    file: &FileState,
    is_second: bool,
) -> bool {
    let name = if is_second {
        other.text(file.name)
    } else {
        one.text(file.name)
    };
    is_other_file(one, other, name) && !(is_second && file_named(one, name).is_some())
}

// The rows of the files of one run that differ, or of those that the second run alone left, but none more once the page has so many
// bytes; returns how many have none.
fn add_files_of<A: Allocator>(
    page: &mut Page<A>,
    one: &Trace<A>,
    other: &Trace<A>,
    is_second: bool,
    most: usize,
) -> usize {
    let mut rows: usize = 0;
    let mut left: usize = 0;
    let owner = if is_second { other } else { one };
    for file in files_left(owner) {
        if has_row(one, other, file, is_second) {
            if rows < FILES && page.size() < most {
                rows = rows.saturating_add(1);
                add_file(page, one, other, owner.text(file.name));
            } else {
                left = left.saturating_add(1);
            }
        }
    }
    left
}

// Says how many files more differ.
fn add_more_files<A: Allocator>(page: &mut Page<A>, more: usize) {
    if more > 0 {
        page.add(&[
            Mark("<tr><th scope=\"row\">and "),
            Num(more),
            Mark(" more files</th><td></td><td></td></tr>\n"),
        ]);
    }
}

// Whether a file differs that the second run left, or the first where it is the owner.
fn has_other_file<A: Allocator>(one: &Trace<A>, other: &Trace<A>, owner: &Trace<A>) -> bool {
    files_left(owner)
        .iter()
        .any(|file| is_other_file(one, other, owner.text(file.name)))
}

// Whether two runs leave the same, as far as the traces show.
fn are_same<A: Allocator>(one: &Trace<A>, other: &Trace<A>) -> bool {
    one.text(one.end.out) == other.text(other.end.out)
        && one.text(one.end.diag) == other.text(other.end.diag)
        && !has_other_file(one, other, one)
        && !has_other_file(one, other, other)
}

/// What two runs leave that differs: their outputs, their messages, and the files, as far as the traces show, each in a row, but no file
/// more once the page has so many bytes.
pub(crate) fn add_differences<A: Allocator>(
    page: &mut Page<A>,
    one: &Trace<A>,
    other: &Trace<A>,
    most: usize,
) {
    page.mark("<h2>What differs</h2>\n");
    if are_same(one, other) {
        page.mark(
            "<p>Nothing: both print the same, and their files are the same as far as the traces tell.</p>\n",
        );
        return;
    }
    page.mark(
        "<table class=\"differ\"><thead><tr><td></td><th scope=\"col\">Run 1</th><th scope=\"col\">Run 2</th></tr></thead>\n<tbody>\n",
    );
    let (out, diag) = (one.text(one.end.out), one.text(one.end.diag));
    add_written(page, "Output", out, other.text(other.end.out));
    add_written(page, "Messages", diag, other.text(other.end.diag));
    let first = add_files_of(page, one, other, false, most);
    let second = add_files_of(page, one, other, true, most);
    add_more_files(page, first.saturating_add(second));
    page.mark("</tbody></table>\n");
}
