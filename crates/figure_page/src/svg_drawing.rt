//! A picture that is being drawn, from its top down.

use crate::svg_style::add_style;
use Piece::{Mark, Num, Short};
use figure_strips::{NAMES, PATTERNS, Sheet, Span, TIME, Window, add_strips, begin_text, folds_of};
use figure_words::{Page, Piece, Run, add_size, full_name};
use std::alloc::{AllocError, Allocator};
use trace_read::Trace;

// How far a picture's edges are from what it shows, and how high a line of text is, in pixels.
const MARGIN: usize = 16;

const LINE: usize = 22;

// How far a title and a line across the picture are from what is above them.
const ABOVE: usize = 6;

// How many columns a script, and what a run printed, take in a line.
const SCRIPT_ROOM: usize = 140;

const TITLE_ROOM: usize = 60;

/// A picture that is being drawn: what it has so far, and how far below its top there is room.
#[derive(Drop)]
pub(crate) struct Drawing<A: Allocator> {
    body: Page<A>,
    top: usize,
}

// Bytes without the LF that ends them, if one does.
fn line_of(bytes: &[u8]) -> &[u8] {
    match bytes {
        [line @ .., b'\n'] => line,
        _ => bytes,
    }
}

// How a run ended.
fn add_end<A: Allocator>(page: &mut Page<A>, trace: &Trace<A>) {
    page.mark(if trace.end.is_finished {
        "finished"
    } else {
        "not finished"
    });
    if let Some(full) = trace.end.full {
        page.add(&[Mark("; full: "), Mark(full_name(full))]);
    }
}

// Which events of a run are drawn, if not all.
fn add_drawn<A: Allocator>(page: &mut Page<A>, span: Span, events: usize) {
    match span.count() {
        count if count >= events => {}
        0 => page.mark("; no event is drawn"),
        _ => page.fill(
            "; events % to % are drawn",
            &[Num(span.first), Num(span.past.saturating_sub(1))],
        ),
    }
}

/// What a picture says to who can't see it: how large a run is, how it ended, and what it printed.
pub(crate) fn add_description<A: Allocator>(
    page: &mut Page<A>,
    name: &'static str,
    run: &Run<'_, A>,
) {
    page.mark(name);
    add_size(page, run);
    add_end(page, run.trace);
    let out = line_of(run.trace.text(run.trace.end.out));
    page.add(&[Mark("; output: “"), Short(out, SCRIPT_ROOM), Mark("”.\n")]);
}

impl<A: Allocator> Drawing<A> {
    /// An empty picture.
    pub(crate) fn new(alloc: A) -> Self {
        Drawing {
            body: Page::new(alloc),
            top: 0,
        }
    }

    // Begins a line of text.
    fn begin_line(&mut self, class: &'static str) {
        begin_text(&mut self.body, class, (0, self.top.saturating_add(14)));
        self.top = self.top.saturating_add(LINE);
    }

    // Ends it.
    fn end_line(&mut self) {
        self.body.mark("</text>\n");
    }

    /// A line of text.
    pub(crate) fn line(&mut self, class: &'static str, pieces: &[Piece<'_>]) {
        self.begin_line(class);
        self.body.add(pieces);
        self.end_line();
    }

    /// The title of some strips.
    pub(crate) fn title(&mut self, pieces: &[Piece<'_>]) {
        self.top = self.top.saturating_add(ABOVE);
        self.line("head", pieces);
    }

    /// The script of a run, in one line.
    pub(crate) fn script(&mut self, script: &[u8]) {
        self.line("head", &[Short(line_of(script), SCRIPT_ROOM)]);
    }

    /// How large a run is, how it ended, and which of its events are drawn.
    pub(crate) fn facts(&mut self, name: &'static str, run: &Run<'_, A>, span: Span) {
        self.begin_line("fact");
        self.body.mark(name);
        add_size(&mut self.body, run);
        add_end(&mut self.body, run.trace);
        add_drawn(&mut self.body, span, run.trace.events.len());
        self.end_line();
    }

    /// A line across the picture, with a sentence below it on where two runs part that begin with so many same events.
    pub(crate) fn parting(&mut self, count: usize) {
        let low = self.top.saturating_add(ABOVE);
        self.body.fill(
            "<path class=\"parting\" d=\"M0 %H%\"/>\n",
            &[Num(low), Num(NAMES + TIME)],
        );
        self.top = low.saturating_add(ABOVE);
        self.begin_line("fact alert");
        figure_words::add_parting(&mut self.body, count);
        self.end_line();
    }
}

impl<A: Allocator + Copy> Drawing<A> {
    /// The strips of some events of a run, which passes them.
    ///
    /// `AllocError` where memory is refused.
    pub(crate) fn strips(
        &mut self,
        alloc: A,
        run: &mut Run<'_, A>,
        span: Span,
    ) -> Result<(), AllocError> {
        run.pass(1, span.first);
        let folds = folds_of(alloc, run, (span.first, span.past))?;
        let window = Window::new(span.first, span.past, folds.as_slice());
        let sheet = Sheet::Picture(self.top);
        if let Sheet::Picture(top) = add_strips(alloc, &mut self.body, run, window, sheet)? {
            self.top = top;
        }
        Ok(())
    }

    /// The whole picture, with this title of the script, and a description for readers who can't see it.
    ///
    /// `AllocError` where memory was refused to a part of it.
    pub(crate) fn end(
        self,
        alloc: A,
        title: &'static str,
        script: &[u8],
        description: Page<A>,
    ) -> Result<Vec<u8, A>, AllocError> {
        let Drawing { body, top } = self;
        let (wide, high) = (NAMES + TIME + 2 * MARGIN, top.saturating_add(2 * MARGIN));
        let mut page = Page::new(alloc);
        add_root(&mut page, (wide, high));
        page.add(&[
            Mark("<title>"),
            Mark(title),
            Mark(": "),
            Short(line_of(script), TITLE_ROOM),
            Mark("</title>\n<desc>"),
        ]);
        page.mark("Each process has a lane; events go from left to right.\n");
        page.append(description);
        page.mark("</desc>\n");
        add_style(&mut page);
        page.add(&[Mark("<defs>\n"), Mark(PATTERNS), Mark("</defs>\n")]);
        add_paper(&mut page, (wide, high));
        page.append(body);
        page.mark("</svg>\n");
        page.end()
    }
}

// The picture's own element, so wide and so high.
fn add_root<A: Allocator>(page: &mut Page<A>, (wide, high): (usize, usize)) {
    page.fill(
        "<svg xmlns=\"http://www.w3.org/2000/svg\" class=\"xvsh\" role=\"img\" width=\"%\" height=\"%\" viewBox=\"-% -% % %\" font-family=\"ui-monospace,'DejaVu Sans Mono',Menlo,Consolas,monospace\" xml:space=\"preserve\">\n",
        &[
            Num(wide),
            Num(high),
            Num(MARGIN),
            Num(MARGIN),
            Num(wide),
            Num(high),
        ],
    );
}

// What lies below all of it.
fn add_paper<A: Allocator>(page: &mut Page<A>, (wide, high): (usize, usize)) {
    page.fill(
        "<rect class=\"under\" x=\"-%\" y=\"-%\" width=\"%\" height=\"%\"/>\n",
        &[Num(MARGIN), Num(MARGIN), Num(wide), Num(high)],
    );
}
