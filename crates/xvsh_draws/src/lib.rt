//! Pages and pictures of traces: what `draw` reads and returns, and the pages of runs that are made again by their schedules.
#![tactic(auto)]

mod fault;
mod request;
mod running;
mod schedules;

pub use fault::DrawFault;
pub use figure_strips::Bounds;
pub use request::DrawRequest;
pub use running::{MAX_TRACE, run_draw};
pub use schedules::draw_runs;
