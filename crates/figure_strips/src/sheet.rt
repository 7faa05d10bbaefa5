//! What strips are drawn onto, and their frames there.
ghost use Rattle.std.specs.Prelude.{◌≡◌};
ghost use Rattle.figure_strips.specs.Sheets.{below};

use crate::geometry::{GAP, NAMES, TIME, Window};
use Piece::Num;
use figure_words::{Page, Piece};
use std::alloc::Allocator;

/// What strips are drawn onto.
#[derive(Clone, Copy)]
pub enum Sheet {
    /// A page of HTML, on which each strip stands in elements of its own.
    Page,
    /// A picture in SVG, which has room from so many pixels below its top on.
    Picture(usize),
}

impl Sheet {
    /// What is left of the sheet below a strip that is so high: of a picture what begins `GAP` lower than the strip ends.
    pub fn below(self, height: usize) -> Sheet
        ensures { result ≡ below GAP self height }
    {
        match self {
            Sheet::Page => Sheet::Page,
            Sheet::Picture(top) => {
                Sheet::Picture(top.saturating_add(height).saturating_add(GAP))
            }
        }
    }
}

/// Begins a strip that is so high, and its names.
pub fn begin_names<A: Allocator>(page: &mut Page<A>, sheet: Sheet, height: usize) {
    match sheet {
        Sheet::Page => page.fill(
            "<div class=\"strip\"><div class=\"side\"><svg aria-hidden=\"true\" viewBox=\"0 0 % %\" width=\"%\" height=\"%\">",
            &[Num(NAMES), Num(height), Num(NAMES), Num(height)],
        ),
        Sheet::Picture(top) => page.fill(
            "<svg x=\"0\" y=\"%\" width=\"%\" height=\"%\">",
            &[Num(top), Num(NAMES), Num(height)],
        ),
    }
}

// What stands between the names of a strip and its time.
fn end_names<A: Allocator>(page: &mut Page<A>, sheet: Sheet, height: usize) {
    match sheet {
        Sheet::Page => page.fill(
            "</svg></div><div class=\"time\"><svg role=\"img\" viewBox=\"0 0 % %\" width=\"%\" height=\"%\">",
            &[Num(TIME), Num(height), Num(TIME), Num(height)],
        ),
        Sheet::Picture(top) => page.fill(
            "</svg>\n<svg x=\"%\" y=\"%\" width=\"%\" height=\"%\">",
            &[Num(NAMES), Num(top), Num(TIME), Num(height)],
        ),
    }
}

/// Ends the names of a strip that is so high, and begins its time, with its title.
pub fn begin_time<A: Allocator>(
    page: &mut Page<A>,
    sheet: Sheet,
    window: Window<'_>,
    height: usize,
) {
    end_names(page, sheet, height);
    let last = window.past.saturating_sub(1);
    page.fill("<title>Events % to %", &[Num(window.first), Num(last)]);
    page.mark(match sheet {
        Sheet::Page => "; the table below tells of them</title>",
        Sheet::Picture(_) => "</title>",
    });
}

/// Ends a strip.
pub fn end_strip<A: Allocator>(page: &mut Page<A>, sheet: Sheet) {
    page.mark(match sheet {
        Sheet::Page => "</svg></div></div>\n",
        Sheet::Picture(_) => "</svg>\n",
    });
}
