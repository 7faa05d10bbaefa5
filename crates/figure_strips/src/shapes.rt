//! Shapes in a picture.

use Piece::{Mark, Num};
use figure_words::{Page, Piece};
use std::alloc::Allocator;

/// A rectangle with this corner, so wide and so high.
pub fn add_rect<A: Allocator>(
    page: &mut Page<A>,
    class: &'static str,
    (x, y): (usize, usize),
    (wide, high): (usize, usize),
) {
    page.fill(
        "<rect class=\"%\" x=\"%\" y=\"%\" width=\"%\" height=\"%\"/>",
        &[Mark(class), Num(x), Num(y), Num(wide), Num(high)],
    );
}

/// A line from a place to another on its right.
pub fn add_line<A: Allocator>(
    page: &mut Page<A>,
    class: &'static str,
    (from, to): (usize, usize),
    y: usize,
) {
    page.fill(
        "<path class=\"%\" d=\"M% %H%\"/>",
        &[Mark(class), Num(from), Num(y), Num(to)],
    );
}

/// A line from a place to another above or below it.
pub fn add_upright<A: Allocator>(
    page: &mut Page<A>,
    class: &'static str,
    x: usize,
    (from, to): (usize, usize),
) {
    page.fill(
        "<path class=\"%\" d=\"M% %V%\"/>",
        &[Mark(class), Num(x), Num(from), Num(to)],
    );
}
