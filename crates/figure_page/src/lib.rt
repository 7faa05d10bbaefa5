//! Draws figures: a page of HTML, or a picture in SVG.
#![tactic(auto)]

mod differ;
mod header;
mod page;
mod pair;
mod phases;
mod story;
mod style;
mod svg_drawing;
mod svg_pair;
mod svg_run;
mod svg_style;
mod table;

pub use page::run_page;
pub use pair::pair_page;
pub use svg_pair::pair_svg;
pub use svg_run::run_svg;
