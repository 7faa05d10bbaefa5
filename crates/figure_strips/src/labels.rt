//! Texts in a picture.

use crate::geometry::LETTER;
use crate::shapes::add_rect;
use Piece::{Mark, Num};
use figure_words::{Page, Piece};
use std::alloc::Allocator;

/// Begins a text at a place.
pub fn begin_text<A: Allocator>(page: &mut Page<A>, class: &'static str, (x, y): (usize, usize)) {
    page.fill(
        "<text class=\"%\" x=\"%\" y=\"%\">",
        &[Mark(class), Num(x), Num(y)],
    );
}

/// A text at a place.
pub fn add_text<A: Allocator>(
    page: &mut Page<A>,
    class: &'static str,
    place: (usize, usize),
    pieces: &[Piece<'_>],
) {
    begin_text(page, class, place);
    page.add(pieces);
    page.mark("</text>");
}

/// A text that takes so many columns, with nothing to be seen below it.
pub fn add_label<A: Allocator>(
    page: &mut Page<A>,
    class: &'static str,
    (x, y): (usize, usize),
    columns: usize,
    pieces: &[Piece<'_>],
) {
    let wide = columns.saturating_mul(LETTER).saturating_add(4);
    let corner = (x.saturating_sub(2), y.saturating_sub(9));
    add_rect(page, "under", corner, (wide, 12));
    add_text(page, class, (x, y), pieces);
}
