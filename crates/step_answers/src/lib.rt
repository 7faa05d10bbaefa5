//! What `xvsh step` answers: what a turn did, and what there is of processes, pipes, descriptors and files, as text and as JSON.
//!
//! A `Play` is a session and a narrator beside it: a second kernel in which the same events happen, one by one, so that each can be
//! printed. All is for readers: no law speaks of it, and tests compare it with worked runs.
#![tactic(auto)]

mod answers;
mod deeds;
mod ends;
mod narrator;
mod objects;
mod plans;
mod play;
mod rest;
mod scene;
mod sleeps;
mod text;
mod views;
mod words;

pub use deeds::{Plan, add_deed, plan_of};
pub use narrator::Narrator;
pub use plans::add_plan;
pub use play::{MOST_TURNS, Play, PlayFault};
pub use scene::Scene;
pub use sleeps::add_sleep;
pub use text::Text;
pub use words::{add_command, add_name, add_object, add_pipe};
