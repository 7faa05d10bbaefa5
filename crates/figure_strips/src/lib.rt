//! The figure of a run in strips of events: a run and some of its events go in, and pictures in SVG are added to a page, or to one
//! picture.
//!
//! `Bounds` says which events are drawn, `folds_of` which of them as one, and `add_strips` draws. All coordinates are whole pixels.
#![tactic(auto)]

mod axis;
mod bands;
mod boxes;
mod drawing;
mod edges;
mod files;
mod folded;
mod folds;
mod geometry;
mod labels;
mod lanes;
mod lives;
mod names;
mod outcomes;
mod patterns;
mod shapes;
mod sheet;
mod span;
mod strip;
mod written;

pub use drawing::{add_strips, add_strips_within};
pub use folds::{folds_of, phases_of};
pub use geometry::{Fold, NAMES, TIME, Window};
pub use labels::{add_text, begin_text};
pub use outcomes::outcome_class;
pub use patterns::PATTERNS;
pub use shapes::{add_line, add_rect};
pub use sheet::Sheet;
pub use span::{Bounds, MOST_EVENTS, Span};
