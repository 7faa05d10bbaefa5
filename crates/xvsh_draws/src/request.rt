//! What `draw` is asked for.

use figure_strips::Bounds;

/// A page or a picture of a trace, or of two traces of one script.
#[derive(Clone, Copy, Debug)]
pub struct DrawRequest<'a> {
    /// The path of the trace; `-` is standard input.
    pub trace: &'a str,
    /// The path of the second trace, if there are two.
    pub other: Option<&'a str>,
    /// Which events are drawn.
    pub bounds: Bounds,
    /// Whether the picture alone is asked for, in SVG, and not the page.
    pub is_svg: bool,
}
