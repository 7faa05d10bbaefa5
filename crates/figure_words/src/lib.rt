//! The markup of a page, and the words of a figure.
#![tactic(auto)]

mod facts;
mod markup;
mod names;
mod run;
mod sentences;
mod words;

pub use facts::{add_parting, add_size};
pub use markup::{Page, Piece, bits_width, shown_width};
pub use names::{add_command, add_place, doing_of, lane_of, stage_of};
pub use run::{Life, Run, events_of, place_of};
pub use sentences::{add_object, add_sentence};
pub use words::{add_call, add_channel, add_doing, add_node, add_process, call_name, full_name};
