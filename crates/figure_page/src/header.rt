//! What stands above a figure: the script, what it printed, and how the run ended.

use crate::style::{BEGUN, HEAD, STYLE};
use Piece::{Count, Lines, Mark, Num, Short};
use figure_strips::PATTERNS;
use figure_words::{Page, Piece, Run, full_name};
use std::alloc::Allocator;
use trace_read::{FileState, Part, Trace};

// How many bytes of a script or an output are shown, and how many files.
const SHOWN: usize = 2048;

const FILES: usize = 16;

// How many columns a title, a file's name and its beginning take.
const TITLE_ROOM: usize = 60;

const NAME_ROOM: usize = 24;

/// The head of a page.
pub(crate) fn add_head<A: Allocator>(page: &mut Page<A>, title: &'static str, script: &[u8]) {
    page.add(&[
        Mark(HEAD),
        Mark("<title>"),
        Mark(title),
        Mark(": "),
        Short(script, TITLE_ROOM),
        Mark("</title>\n"),
        Mark(STYLE),
        Mark(PATTERNS),
        Mark(BEGUN),
        Mark("<main>\n<h1>"),
        Mark(title),
        Mark("</h1>\n"),
    ]);
    add_beginning(page, "<pre class=\"script\">", script);
    page.mark("</pre>\n");
}

// Bytes behind this mark, or their beginning.
fn add_beginning<A: Allocator>(page: &mut Page<A>, mark: &'static str, bytes: &[u8]) {
    let shown = bytes.get(..SHOWN).unwrap_or(bytes);
    page.add(&[Mark(mark), Lines(shown)]);
    if shown.len() < bytes.len() {
        page.add(&[
            Mark("</pre><p class=\"note\">and "),
            Count(bytes.len().saturating_sub(shown.len())),
            Mark(" more</p><pre>"),
        ]);
    }
}

/// What a run printed, as a fact of this name.
pub(crate) fn add_printed<A: Allocator>(page: &mut Page<A>, name: &'static str, bytes: &[u8]) {
    page.add(&[Mark("<div><dt>"), Mark(name), Mark("</dt><dd>")]);
    if bytes.is_empty() {
        page.mark("nothing");
    } else {
        add_beginning(page, "<pre>", bytes);
        page.mark("</pre>");
    }
    page.mark("</dd></div>\n");
}

// A file: its name, its length and its beginning.
fn add_file<A: Allocator + Copy>(page: &mut Page<A>, trace: &Trace<A>, file: &FileState) {
    page.add(&[
        Mark("<div><code>"),
        Short(trace.text(file.name), NAME_ROOM),
        Mark("</code> "),
        Count(file.length),
    ]);
    if file.length > 0 {
        page.add(&[
            Mark(" <code>“"),
            Short(trace.text(file.head), NAME_ROOM),
            Mark("”</code>"),
        ]);
    }
    page.mark("</div>");
}

/// Some files, as a fact of this name.
pub(crate) fn add_files<A: Allocator + Copy>(
    page: &mut Page<A>,
    name: &'static str,
    trace: &Trace<A>,
    files: Part,
) {
    page.add(&[Mark("<div><dt>"), Mark(name), Mark("</dt><dd>")]);
    let files = trace
        .files
        .as_slice()
        .get(files.first..files.past)
        .unwrap_or(&[]);
    if files.is_empty() {
        page.mark("no files");
    }
    for file in files.iter().take(FILES) {
        add_file(page, trace, file);
    }
    if files.len() > FILES {
        page.add(&[
            Mark("<div>and "),
            Num(files.len().saturating_sub(FILES)),
            Mark(" more</div>"),
        ]);
    }
    page.mark("</dd></div>\n");
}

/// How large a run is, and how it ended.
pub(crate) fn add_size<A: Allocator + Copy>(
    page: &mut Page<A>,
    name: &'static str,
    run: &Run<'_, A>,
) {
    let trace = run.trace;
    page.add(&[Mark("<div><dt>"), Mark(name), Mark("</dt><dd>")]);
    figure_words::add_size(page, run);
    page.add(&[
        Mark(if trace.end.is_finished {
            "finished"
        } else {
            "<b class=\"alert\">not finished</b>"
        }),
        Mark(if trace.head.appends {
            "; <code>&gt;&gt;</code> appends"
        } else {
            ""
        }),
    ]);
    if let Some(full) = trace.end.full {
        page.add(&[
            Mark("; <b class=\"alert\">full: "),
            Mark(full_name(full)),
            Mark("</b>"),
        ]);
    }
    page.mark("</dd></div>\n");
}

/// What a run printed and left.
pub(crate) fn add_facts<A: Allocator + Copy>(page: &mut Page<A>, run: &Run<'_, A>) {
    let trace = run.trace;
    page.mark("<dl class=\"facts\">\n");
    add_printed(page, "Output", trace.text(trace.end.out));
    if !trace.text(trace.end.diag).is_empty() {
        add_printed(page, "Messages", trace.text(trace.end.diag));
    }
    add_files(page, "Files before", trace, trace.head.files);
    add_files(page, "Files after", trace, trace.end.files);
    add_size(page, "Run", run);
    page.mark("</dl>\n");
}
